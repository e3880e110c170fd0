// Each term is judged once, where it stands, and of those that are refused the smallest is kept.
ghost use Rattle.std.specs.Prelude.{◌+◌, ◌≤◌};
ghost use Rattle.program.specs.Limits.{max_terms};
ghost use Rattle.places.specs.Internal.{child_at};
ghost use Rattle.smallest.specs.Internal.{Visitable, VisitedAs, CombinedFrom};

use crate::candidates::{or_own, smaller};
use crate::judgement::judgement;
use places::{Place, first_child, second_child, third_child};
use program::records::Counts;
use subterms::answer::Faulty;
use subtyping::known::Known;
use typing::answer::{Fault, Typed};

// What is found of a term: its judgement, how many terms there are in it, itself counted, and the smallest of them that is refused. Of a child that is
// absent it is nothing.
#[derive(Clone, Copy)]
pub struct Visited {
    pub judged: Result<Typed, Fault>,
    pub count: u16,
    pub smallest: Option<Faulty>,
}

// All children are visited, also where one of them is refused.
pub fn visit(s: &[u8], c: Counts, known: &mut Known, y: Option<Place>) -> Visited
    requires { Visitable s.now c known.old y }
    ensures { VisitedAs s.now (child_at s.now y) result known.new }
{
    let Some(at) = y else {
        return Visited {
            judged: Ok(Typed { ty: 0, needs: 0 }),
            count: 0,
            smallest: None,
        };
    };
    let first = first_child(s, c, at);
    let i = visit(s, c, known, first);
    let second = second_child(s, c, at);
    let j = visit(s, c, known, second);
    let third = third_child(s, c, at);
    let k = visit(s, c, known, third);
    let r = judgement(s, c, known, at, i.judged, j.judged, k.judged);
    combine(at.term, r, i, j, k)
}

// What is found of term t, judged so, from what is found of its children.
fn combine(t: u16, r: Result<Typed, Fault>, i: Visited, j: Visited, k: Visited) -> Visited
    requires { 1 + i.count + j.count + k.count ≤ max_terms }
    ensures { CombinedFrom t r i j k result }
{
    let count = 1 + i.count + j.count + k.count;
    let below = smaller(smaller(i.smallest, j.smallest), k.smallest);
    Visited {
        judged: r,
        count,
        smallest: or_own(below, t, count, r),
    }
}
