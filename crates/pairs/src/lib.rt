// The pairs of the number terms, lowest and highest in turn: whether they are right for a sheet, and their place in the words of its terms.
#![tactic(auto)]

ghost use Rattle.std.specs.Prelude.{◌≡◌, ◌*◌, ◌≤◌, length};
ghost use Rattle.program.specs.Layout.{terms as term_count};
ghost use Rattle.intervals.specs.Pairs.{is_number, numbers_below, ordered as ordered_pairs, pairs_ok};
ghost use Rattle.accessors.specs.Internal.{FormedSheet};
ghost use Rattle.pairs.specs.Internal.{TermOf, PairsFit, PairsLaid};

use program::limits::TERM_PLACES;
use program::records::Counts;
use stores::words::interval;

// Whether term t is a number.
fn is_number(s: &[u8], c: Counts, t: u16) -> bool
    requires { TermOf s.now c t }
    ensures { result ≡ is_number s.now t }
{
    accessors::term(s, c, t).kind == 1
}

// How many terms are numbers.
fn count_numbers(s: &[u8], c: Counts) -> u16
    requires { FormedSheet s.now c }
    ensures { result ≡ numbers_below s.now (term_count s.now) }
{
    let mut n = 0;
    for t in 0..c.terms {
        if is_number(s, c, t) {
            n += 1;
        }
    }
    n
}

// Whether none of so many pairs has a lowest above its highest.
fn ordered(pairs: &[u16], count: u16) -> bool
    requires { 2 * count ≤ length pairs.now }
    ensures { result ≡ ordered_pairs pairs.now count }
{
    for i in 0..count as usize {
        if pairs[2 * i + 1] < pairs[2 * i] {
            return false;
        }
    }
    true
}

// Whether the sheet has version 1, and a pair in order for each of its number terms.
pub fn pairs_ok(s: &[u8], c: Counts, pairs: &[u16]) -> bool
    requires { FormedSheet s.now c }
    ensures { result ≡ pairs_ok s.now pairs.now }
{
    if accessors::be16(s, 3) != 1 {
        return false;
    }
    let n = count_numbers(s, c);
    if pairs.len() != 2 * (n as usize) {
        return false;
    }
    ordered(pairs, n)
}

// Gives the word of each number term its pair, as first and second: the word of a number term and that of a number that is known within limits are alike.
pub fn lay_pairs(s: &[u8], c: Counts, pairs: &[u16], terms: &mut [u64; TERM_PLACES])
    requires { PairsFit s.now c pairs.now terms.old }
    ensures { PairsLaid s.now pairs.now (term_count s.now) terms.old terms.new }
{
    let mut n = 0;
    for t in 0..c.terms {
        if is_number(s, c, t) {
            let lowest = pairs[2 * n];
            let highest = pairs[2 * n + 1];
            terms[t as usize] = interval(lowest, highest);
            n += 1;
        }
    }
}
