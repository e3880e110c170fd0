// The unit's record held against the office's: each of the unit's entries is placed at the first of the office's entries behind the one before that equals
// it. specs/Answers.antt has the paper's number of each case.
#![tactic(auto)]

ghost use Rattle.std.specs.Prelude.{◌≡◌};
ghost use Rattle.traces.specs.Traces.{event_at, well_formed_record};
ghost use Rattle.traces.specs.Comparing.{same_event, comparison};
ghost use Rattle.compare.specs.Answers.{comparison_model};
ghost use Rattle.compare.specs.Internal.{TwoEntries, TwoFormed, matched_entries};

pub mod answer;

use answer::{Comparison, Malformed};

// Bytes of an entry.
pub const ENTRY: usize = 4;

pub fn compare(unit: &[u8], office: &[u8]) -> Result<Comparison, Malformed>
    ensures { comparison_model result ≡ comparison unit.now office.now }
{
    if !well_formed(unit) {
        return Err(Malformed);
    }
    if !well_formed(office) {
        return Err(Malformed);
    }
    let placed = count_matched(unit, office);
    let entries = unit.len() / ENTRY;
    if placed < entries {
        return Ok(Comparison::Diverges(placed));
    }
    Ok(Comparison::Fits(office.len() / ENTRY - entries))
}

// Whether a record has whole entries alone, each with 0 or 1 for its decision.
fn well_formed(s: &[u8]) -> bool
    ensures { result ≡ well_formed_record s.now }
{
    if s.len() % ENTRY != 0 {
        return false;
    }
    for k in 0..s.len() / ENTRY {
        if 1 < s[ENTRY * k + 3] {
            return false;
        }
    }
    true
}

// How many of the unit's entries can be placed, from the first on: those before byte i. By bytes, since the compiler adds to a number of entries what a
// comparison gives, without a branch, and each entry then waits for the one before it.
fn count_matched(unit: &[u8], office: &[u8]) -> usize
    requires { TwoFormed unit.now office.now }
    ensures { result ≡ matched_entries unit.now office.now }
{
    let mut i = 0;
    for j in 0..office.len() / ENTRY {
        if i == unit.len() {
            return i / ENTRY;
        }
        if same(unit, i, office, ENTRY * j) {
            i += ENTRY;
        }
    }
    i / ENTRY
}

// Whether the entries at two places are equal: events are if their bytes are. Byte by byte: `==` of two slices takes as long again as all the rest.
fn same(unit: &[u8], i: usize, office: &[u8], j: usize) -> bool
    requires { TwoEntries unit.now i office.now j }
    ensures { result ≡ same_event (event_at unit.now i) (event_at office.now j) }
{
    unit[i] == office[j]
        && unit[i + 1] == office[j + 1]
        && unit[i + 2] == office[j + 2]
        && unit[i + 3] == office[j + 3]
}
