// A term where it stands in a sheet, and its children where they stand.
#![tactic(auto)]

ghost use Rattle.std.specs.Prelude.{◌≡◌, ◌≤◌};
ghost use Rattle.places.specs.Internal.{place_of, AtRoot, children_at, ReadyPlace, Reached};

use accessors::{term, type_record};
use program::records::Counts;
use rules::bindings::{Bindings, none, push};

// A term with the bindings and the principal that it has in the sheet.
#[derive(Clone, Copy)]
pub struct Place {
    pub term: u16,
    pub bindings: Bindings,
    pub principal: u8,
}

impl Place {
    pub fn new(term: u16, bindings: Bindings, principal: u8) -> Place
        ensures { result ≡ place_of term bindings principal }
    {
        Place {
            term,
            bindings,
            principal,
        }
    }
}

// The root, where it stands: without bindings. It is a sign, so that the principal named here is never looked at.
pub fn root(c: Counts) -> Place
    requires { 1 ≤ c.terms }
    ensures { AtRoot c result }
{
    Place::new(c.terms - 1, none(), 0)
}

// The first child. A sign's stands under the principal that signs. It and the two after it are no part of their callers' code, since those recurse, and
// each open call would keep the bindings that are made here.
#[inline(never)]
pub fn first_child(s: &[u8], c: Counts, at: Place) -> Option<Place>
    requires { ReadyPlace s.now c at }
    ensures { Reached s.now c at.term result (children_at s.now at).first }
{
    let b = at.bindings;
    let n = at.principal;
    let x = term(s, c, at.term);
    match x.kind {
        0..=4 => None,
        9 => Some(Place::new(x.first, b, x.small)),
        _ => Some(Place::new(x.first, b, n)),
    }
}

// The second child. A function's body has one binding more, its argument's, and a letrec's body two.
#[inline(never)]
pub fn second_child(s: &[u8], c: Counts, at: Place) -> Option<Place>
    requires { ReadyPlace s.now c at }
    ensures { Reached s.now c at.term result (children_at s.now at).second }
{
    let b = at.bindings;
    let n = at.principal;
    let x = term(s, c, at.term);
    match x.kind {
        0..=2 => None,
        3 => {
            let f = type_record(s, c, x.first);
            let inner = push(b, f.arg);
            Some(Place::new(x.second, inner, n))
        }
        4 => {
            let f = type_record(s, c, x.first);
            let outer = push(b, x.first);
            let inner = push(outer, f.arg);
            Some(Place::new(x.second, inner, n))
        }
        5..=6 => Some(Place::new(x.second, b, n)),
        7..=9 => None,
        10..=13 => Some(Place::new(x.second, b, n)),
        _ => None,
    }
}

// The third child. A letrec's rest has one binding more.
#[inline(never)]
pub fn third_child(s: &[u8], c: Counts, at: Place) -> Option<Place>
    requires { ReadyPlace s.now c at }
    ensures { Reached s.now c at.term result (children_at s.now at).third }
{
    let b = at.bindings;
    let n = at.principal;
    let x = term(s, c, at.term);
    match x.kind {
        4 => {
            let outer = push(b, x.first);
            Some(Place::new(x.third, outer, n))
        }
        6 => Some(Place::new(x.third, b, n)),
        _ => None,
    }
}
