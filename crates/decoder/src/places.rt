// Parents, signed bodies and the signed root: refusal 7.
ghost use Rattle.std.specs.Prelude.{◌≡◌, cond, not, ◌&&◌, ◌||◌, ◌<◌, eqb, length};
ghost use Rattle.program.specs.Layout.{second, terms};
ghost use Rattle.program.specs.Screening.{lowest};
ghost use Rattle.program.specs.Decoding.{format_at, is_sign, signed_body, placed_ok};
ghost use Rattle.program.specs.Search.{found_model};
ghost use Rattle.decoder.specs.Internal.{Tables, TableTerm, Linked, ChildrenBelow, LinkedAll, Links, LinkedTables, LinkedTerm, many_parents};

use accessors::table_term;
use program::limits::TERM_PLACES;
use program::records::Counts;
use termrecords::{Shape, shape_at};

// Noted for a term with more than one parent: no term has so high a number.
const MANY_PARENTS: u16 = 65535;

// Notes t as the parent of x. A parent has a higher number than its child, so that 0 stands for none.
fn link(parents: &mut [u16], x: u16, t: u16)
    requires { x < length parents.old }
    ensures { Linked parents.old parents.new x t }
{
    let i = x as usize;
    if parents[i] == 0 {
        parents[i] = t;
    } else {
        parents[i] = MANY_PARENTS;
    }
}

// Notes t as the parent of its children.
fn link_all(parents: &mut [u16], x: Shape, t: u16)
    requires { ChildrenBelow x (length parents.old) }
    ensures { LinkedAll parents.old parents.new x t }
{
    match x {
        Shape::Leaf => {}
        Shape::One(a) => link(parents, a, t),
        Shape::Two(a, b) => {
            link(parents, a, t);
            link(parents, b, t);
        }
        Shape::Three(a, b, d) => {
            link(parents, a, t);
            link(parents, b, t);
            link(parents, d, t);
        }
        Shape::Function(b) => link(parents, b, t),
        Shape::Letrec(b, d) => {
            link(parents, b, t);
            link(parents, d, t);
        }
    }
}

// Each term's parent, 0 where there is none and MANY_PARENTS where there are several.
pub fn parents_of(s: &[u8], c: Counts) -> [u16; TERM_PLACES]
    requires { Tables s.now c }
    ensures { Links s.now result (terms s.now) }
{
    let mut parents = [0; TERM_PLACES];
    for t in 0..c.terms {
        if let Some(x) = shape_at(s, c, t) {
            link_all(&mut parents, x, t);
        }
    }
    parents
}

fn is_sign(s: &[u8], c: Counts, t: u16) -> bool
    requires { TableTerm s.now c t }
    ensures { result ≡ is_sign s.now t }
{
    let r = table_term(s, c, t);
    r.kind == 9
}

// Whether the body of term t, if it is a function or a letrec, is signed.
fn body_signed(s: &[u8], c: Counts, t: u16) -> bool
    requires { TableTerm s.now c t }
    ensures { result ≡ signed_body s.now (format_at s.now t).second (second s.now t) }
{
    let r = table_term(s, c, t);
    // `|` and not `||`: the test is then one value, of which the laws of a body speak.
    if (r.kind == 3) | (r.kind == 4) {
        return is_sign(s, c, r.second);
    }
    true
}

// Whether the parents noted for a term are those that are due: none for the root, and one for any other.
fn parents_ok(p: u16, root: bool) -> bool
    ensures { result ≡ cond root (eqb p 0) (not (eqb p 0) && not (eqb p many_parents)) }
{
    if root {
        p == 0
    } else {
        p != 0 && p != MANY_PARENTS
    }
}

// Whether term t is signed if it is the root.
fn root_signed(s: &[u8], c: Counts, t: u16, root: bool) -> bool
    requires { TableTerm s.now c t }
    ensures { result ≡ (not root || is_sign s.now t) }
{
    !root || is_sign(s, c, t)
}

// Whether term t has its parents and its signs.
fn place_ok(s: &[u8], c: Counts, parents: &[u16; TERM_PLACES], t: u16) -> bool
    requires { LinkedTerm s.now c parents.now t }
    ensures { result ≡ placed_ok s.now t }
{
    let root = t + 1 == c.terms;
    let i = t as usize;
    let p = parents[i];
    parents_ok(p, root) && body_signed(s, c, t) && root_signed(s, c, t, root)
}

// The lowest term with a wrong number of parents, whose body is unsigned, or which is the root and unsigned.
pub fn bad_place(s: &[u8], c: Counts, parents: &[u16; TERM_PLACES]) -> Option<u16>
    requires { LinkedTables s.now c parents.now }
    ensures { found_model result ≡ lowest (placed_ok s.now) 0 (terms s.now) }
{
    (0..c.terms).find(
        |&t|
            requires { LinkedTerm s.now c parents.now t }
        { !place_ok(s, c, parents, t) },
    )
}
