// The records of the lean sheet, byte by byte.
ghost use Rattle.std.specs.Prelude.{[], ◌∷◌, ◌++◌, ◌≡◌};
ghost use Rattle.erasure.specs.Lean.{bytes16, type_bytes, term_bytes};
ghost use Rattle.leanwriting.specs.Internal.{NumberedType, NumberedTerm};

use accessors::{term, type_record};
use program::limits::{TERM_PLACES, TYPE_PLACES};
use program::records::Counts;

// A type's record from its parts, with an empty latent set.
fn ten(kind: u8, a: u16, b: u16) -> [u8; 10]
    ensures { result ≡ kind ∷ 0 ∷ bytes16 a ++ bytes16 b ++ 0 ∷ 0 ∷ 0 ∷ 0 ∷ [] }
{
    let [a_high, a_low] = a.to_be_bytes();
    let [b_high, b_low] = b.to_be_bytes();
    [kind, 0, a_high, a_low, b_high, b_low, 0, 0, 0, 0]
}

// A term's record from its parts.
fn eight(kind: u8, small: u8, a: u16, b: u16, d: u16) -> [u8; 8]
    ensures { result ≡ kind ∷ small ∷ bytes16 a ++ bytes16 b ++ bytes16 d }
{
    let [a_high, a_low] = a.to_be_bytes();
    let [b_high, b_low] = b.to_be_bytes();
    let [d_high, d_low] = d.to_be_bytes();
    [kind, small, a_high, a_low, b_high, b_low, d_high, d_low]
}

// The new record of type t: its parts have their new numbers, and its latent set is empty.
pub fn type_bytes(s: &[u8], c: Counts, types: &[u16; TYPE_PLACES], t: u16) -> [u8; 10]
    requires { NumberedType s.now c types.now t }
    ensures { result ≡ type_bytes s.now t }
{
    let x = type_record(s, c, t);
    let a = x.arg as usize;
    let b = x.res as usize;
    ten(x.kind, types[a], types[b])
}

// The new record of term t: a function's type and the children have their new numbers, and every other part stays.
pub fn term_bytes(
    s: &[u8],
    c: Counts,
    types: &[u16; TYPE_PLACES],
    terms: &[u16; TERM_PLACES],
    t: u16,
) -> [u8; 8]
    requires { NumberedTerm s.now c types.now terms.now t }
    ensures { result ≡ term_bytes s.now t }
{
    let x = term(s, c, t);
    let kind = x.kind;
    let small = x.small;
    let first = x.first as usize;
    let second = x.second as usize;
    let third = x.third as usize;
    match kind {
        0..=2 => eight(kind, small, x.first, x.second, x.third),
        3 => eight(kind, small, types[first], terms[second], x.third),
        4 => eight(kind, small, types[first], terms[second], terms[third]),
        5 => eight(kind, small, terms[first], terms[second], x.third),
        6 => eight(kind, small, terms[first], terms[second], terms[third]),
        7..=9 => eight(kind, small, terms[first], x.second, x.third),
        10..=13 => eight(kind, small, terms[first], terms[second], x.third),
        _ => eight(kind, small, terms[first], x.second, x.third),
    }
}
