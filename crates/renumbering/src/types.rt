// Types whose records become equal are merged into the first of them; those that are kept are numbered anew without gaps.
ghost use Rattle.std.specs.Prelude.{◌≡◌};
ghost use Rattle.accessors.specs.Internal.{FormedSheet};
ghost use Rattle.erasure.specs.Lean.{alike as alike_of, representatives, representative};
ghost use Rattle.renumbering.specs.Internal.{MergingType, MergingPair, TypesNumbered};

use crate::numbers::Numbers;
use accessors::type_record;
use program::limits::TYPE_PLACES;
use program::records::Counts;

// Whether the records of t and of the lower type u become equal. `numbers` has the new numbers of the types below t: two of them are equal where the
// types are merged.
fn alike(s: &[u8], c: Counts, numbers: &[u16; TYPE_PLACES], t: u16, u: u16) -> bool
    requires { MergingPair s.now c numbers.now t u }
    ensures { result ≡ alike_of s.now (representatives s.now t) t u }
{
    let x = type_record(s, c, t);
    let y = type_record(s, c, u);
    let xa = x.arg as usize;
    let ya = y.arg as usize;
    let xr = x.res as usize;
    let yr = y.res as usize;
    (y.kind == x.kind) & (numbers[ya] == numbers[xa]) & (numbers[yr] == numbers[xr])
}

// The type into which t is merged: the first whose record becomes equal to its own.
fn first_alike(s: &[u8], c: Counts, numbers: &[u16; TYPE_PLACES], t: u16) -> u16
    requires { MergingType s.now c numbers.now t }
    ensures { result ≡ representative s.now t }
{
    for u in 0..t {
        if alike(s, c, numbers, t, u) {
            return u;
        }
    }
    t
}

// The new numbers. A type that is merged has that of a lower one, so that one pass gives all of them.
pub fn number_types(s: &[u8], c: Counts) -> Numbers<TYPE_PLACES>
    requires { FormedSheet s.now c }
    ensures { TypesNumbered s.now result }
{
    let mut numbers = [0u16; TYPE_PLACES];
    let mut count = 0;
    for t in 0..c.types {
        let i = t as usize;
        let h = first_alike(s, c, &numbers, t) as usize;
        if h == i {
            numbers[i] = count;
            count += 1;
        } else {
            numbers[i] = numbers[h];
        }
    }
    Numbers { numbers, count }
}
