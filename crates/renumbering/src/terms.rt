// Terms without the checks and enables, numbered anew without gaps; and whether there is a test among them.
ghost use Rattle.std.specs.Prelude.{◌&&◌, ◌≡◌, leb};
ghost use Rattle.program.specs.Layout.{terms as term_count};
ghost use Rattle.accessors.specs.Internal.{FormedSheet};
ghost use Rattle.erasure.specs.Lean.{untested as untested_below};
ghost use Rattle.renumbering.specs.Internal.{TermsNumbered};

use crate::numbers::Numbers;
use accessors::term;
use program::limits::TERM_PLACES;
use program::records::Counts;

// Whether a kind is that of checks or of enables.
pub fn is_erased(kind: u8) -> bool
    ensures { result ≡ (leb 7 kind && leb kind 8) }
{
    (7 <= kind) & (kind <= 8)
}

// The new numbers. A check or an enable has that of its inner term, which is lower, so that one pass gives all of them.
pub fn number_terms(s: &[u8], c: Counts) -> Numbers<TERM_PLACES>
    requires { FormedSheet s.now c }
    ensures { TermsNumbered s.now result }
{
    let mut numbers = [0u16; TERM_PLACES];
    let mut count = 0;
    for t in 0..c.terms {
        let i = t as usize;
        let x = term(s, c, t);
        let inner = x.first as usize;
        if is_erased(x.kind) {
            numbers[i] = numbers[inner];
        } else {
            numbers[i] = count;
            count += 1;
        }
    }
    Numbers { numbers, count }
}

// Whether no term is a test.
pub fn untested(s: &[u8], c: Counts) -> bool
    requires { FormedSheet s.now c }
    ensures { result ≡ untested_below s.now (term_count s.now) }
{
    for t in 0..c.terms {
        let x = term(s, c, t);
        if x.kind == 10 {
            return false;
        }
    }
    true
}
