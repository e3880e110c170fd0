// The chain of terms from the root to a cause.
ghost use Rattle.std.specs.Prelude.{map};
ghost use Rattle.program.specs.Layout.{types_of};
ghost use Rattle.subtyping.specs.Known.{Answered};
ghost use Rattle.typing.specs.Places.{placed_number};
ghost use Rattle.chains.specs.Explaining.{explained, chain_of};
ghost use Rattle.chains.specs.Answers.{ExplainedAs};
ghost use Rattle.places.specs.Internal.{child_at, ReadyPlace, Reached};
ghost use Rattle.following.specs.Internal.{followed_at, needed_by, next_at, JudgeableChild, Following, FollowingCall, FollowingOther, Stepped, Followable};

use crate::causes::{has_latent, is_cause};
use accessors::term;
use chains::answer::Explained;
use checker::infer::infer;
use places::{Place, first_child, root, second_child, third_child};
use program::limits::NESTING_PLACES;
use program::records::Counts;
use subtyping::known::{KNOWN_WORDS, Known};

// Whether there is a child that needs privilege p.
fn child_needs(s: &[u8], c: Counts, known: &mut Known, y: Option<Place>, p: u8) -> bool
    requires { JudgeableChild s.now c known.old p y }
    ensures { Answered (types_of s.now) result (needed_by s.now p (child_at s.now y)) known.new }
{
    let Some(at) = y else {
        return false;
    };
    match infer(s, c, known, at.term, at.bindings, at.principal) {
        Ok(x) => privileges::contains(p, x.needs),
        Err(_) => false,
    }
}

// The first child, to look for privilege p. That of a test of p is the yes-branch, which is not followed.
fn first_followed(s: &[u8], c: Counts, at: Place, p: u8) -> Option<Place>
    requires { ReadyPlace s.now c at }
    ensures { Reached s.now c at.term result (followed_at s.now p at).first }
{
    let x = term(s, c, at.term);
    if x.kind == 10 && x.small == p {
        return None;
    }
    first_child(s, c, at)
}

// The next place after a call: none if its function's latent set has privilege p, else the function part if that needs p, else the argument. The function
// part is judged once for both.
fn after_call(s: &[u8], c: Counts, known: &mut Known, at: Place, p: u8) -> Option<Place>
    requires { FollowingCall s.now c known.old p at }
    ensures { Stepped s.now c p result (next_at s.now p at) known.new }
{
    let x = term(s, c, at.term);
    let Ok(function) = infer(s, c, known, x.first, at.bindings, at.principal) else {
        return None;
    };
    if has_latent(s, c, function.ty, p) {
        return None;
    }
    if privileges::contains(p, function.needs) {
        return first_child(s, c, at);
    }
    second_child(s, c, at)
}

// The next place after any other term: none after a cause, else the child at the lowest position that needs privilege p. One of them does, so that the
// last one is not judged.
fn after_other(s: &[u8], c: Counts, known: &mut Known, at: Place, p: u8) -> Option<Place>
    requires { FollowingOther s.now c known.old p at }
    ensures { Stepped s.now c p result (next_at s.now p at) known.new }
{
    if is_cause(s, c, at, p) {
        return None;
    }
    let first = first_followed(s, c, at, p);
    let second = second_child(s, c, at);
    let third = third_child(s, c, at);
    if second.is_none() && third.is_none() {
        return first;
    }
    if child_needs(s, c, known, first, p) {
        return first;
    }
    if third.is_none() {
        return second;
    }
    if child_needs(s, c, known, second, p) {
        return second;
    }
    third
}

// The next place of the chain. A call goes its own way, since its function part tells whether it is a cause.
fn next_place(s: &[u8], c: Counts, known: &mut Known, at: Place, p: u8) -> Option<Place>
    requires { Following s.now c known.old p at }
    ensures { Stepped s.now c p result (next_at s.now p at) known.new }
{
    let x = term(s, c, at.term);
    if x.kind == 5 {
        return after_call(s, c, known, at, p);
    }
    after_other(s, c, known, at, p)
}

// The chain of a readable sheet whose root needs privilege p: at most 32 terms, the sheet's nesting.
pub fn follow(s: &[u8], c: Counts, p: u8) -> Explained
    requires { Followable s.now c p }
    ensures { ExplainedAs result (explained (map placed_number (chain_of s.now p))) }
{
    let mut known: Known = [0; KNOWN_WORDS];
    let mut terms = [0u16; NESTING_PLACES];
    let mut at = root(c);
    for len in 0..NESTING_PLACES {
        terms[len] = at.term;
        let Some(next) = next_place(s, c, &mut known, at, p) else {
            return Explained {
                answer: Ok(Some(len + 1)),
                terms,
            };
        };
        at = next;
    }
    Explained {
        answer: Ok(Some(NESTING_PLACES)),
        terms,
    }
}
