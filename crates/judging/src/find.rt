// The place of a term in a sheet, by its number: the terms are looked through from the root on, but for what stands in a term with a lower number.
ghost use Rattle.places.specs.Internal.{child_at, ReadyChild};
ghost use Rattle.judging.specs.Internal.{FoundAs};

use places::{Place, first_child, second_child, third_child};
use program::records::Counts;

// Term t, if it is the child y or stands in it.
pub fn find(s: &[u8], c: Counts, y: Option<Place>, t: u32) -> Option<Place>
    requires { ReadyChild s.now c y }
    ensures { FoundAs s.now c t (child_at s.now y) result }
{
    let at = y?;
    let n = at.term as u32;
    if n == t {
        return y;
    }
    // What stands in a term has a lower number.
    if n < t {
        return None;
    }
    let first = first_child(s, c, at);
    let i = find(s, c, first, t);
    if i.is_some() {
        return i;
    }
    let second = second_child(s, c, at);
    let j = find(s, c, second, t);
    if j.is_some() {
        return j;
    }
    let third = third_child(s, c, at);
    find(s, c, third, t)
}
