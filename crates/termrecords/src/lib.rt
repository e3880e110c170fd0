// The term records: refusal 6, and the children that a record names.
#![tactic(auto)]

ghost use Rattle.std.specs.Prelude.{◌≡◌};
ghost use Rattle.program.specs.Layout.{terms};
ghost use Rattle.program.specs.Screening.{lowest};
ghost use Rattle.program.specs.Decoding.{term_ok};
ghost use Rattle.accessors.specs.Internal.{Laid};
ghost use Rattle.program.specs.Search.{found_model};
ghost use Rattle.termrecords.specs.Internal.{LaidTerm, shape_of, shape_at};

use accessors::table_term;
use program::limits::MAX_PRIVILEGE;
use program::records::{Counts, TermRecord};

// The children of a term by their numbers. The body of a function or letrec has to be a sign.
#[derive(Clone, Copy)]
pub enum Shape {
    Leaf,
    One(u16),
    Two(u16, u16),
    Three(u16, u16, u16),
    Function(u16),
    Letrec(u16, u16),
}

// What a record is as that of term t: its children, none if it is wrong.
fn shape_of(r: TermRecord, c: Counts, t: u16) -> Option<Shape>
    ensures { result ≡ shape_of c t r }
{
    let x = r.small;
    let a = r.first;
    let b = r.second;
    let d = r.third;
    let y = c.types;
    // `&` and not `&&`: a test is then one value and no branch, so that each kind has one law (the proof by branches did not close).
    match r.kind {
        0 => ((x <= 1) & (a == 0) & (b == 0) & (d == 0)).then_some(Shape::Leaf),
        1..=2 => ((x == 0) & (b == 0) & (d == 0)).then_some(Shape::Leaf),
        3 => ((x == 0) & ((2 <= a) & (a < y)) & (b < t) & (d == 0)).then_some(Shape::Function(b)),
        4 => ((x == 0) & ((2 <= a) & (a < y)) & (b < t) & (d < t)).then_some(Shape::Letrec(b, d)),
        5 => ((x == 0) & (a < t) & (b < t) & (d == 0)).then_some(Shape::Two(a, b)),
        6 => ((x == 0) & (a < t) & (b < t) & (d < t)).then_some(Shape::Three(a, b, d)),
        7..=8 => ((x <= MAX_PRIVILEGE) & (a < t) & (b == 0) & (d == 0)).then_some(Shape::One(a)),
        9 => ((x < c.principals) & (a < t) & (b == 0) & (d == 0)).then_some(Shape::One(a)),
        10 => ((x <= MAX_PRIVILEGE) & (a < t) & (b < t) & (d == 0)).then_some(Shape::Two(a, b)),
        11..=13 => ((x == 0) & (a < t) & (b < t) & (d == 0)).then_some(Shape::Two(a, b)),
        14 => ((x < c.channels) & (a < t) & (b == 0) & (d == 0)).then_some(Shape::One(a)),
        _ => None,
    }
}

// The shape of term t, none if its record is wrong.
pub fn shape_at(s: &[u8], c: Counts, t: u16) -> Option<Shape>
    requires { LaidTerm s.now c t }
    ensures { result ≡ shape_at s.now t }
{
    shape_of(table_term(s, c, t), c, t)
}

// The lowest term record at fault.
pub fn bad_term(s: &[u8], c: Counts) -> Option<u16>
    requires { Laid s.now c }
    ensures { found_model result ≡ lowest (term_ok s.now) 0 (terms s.now) }
{
    (0..c.terms).find(
        |&t|
            requires { LaidTerm s.now c t }
        { shape_at(s, c, t).is_none() },
    )
}
