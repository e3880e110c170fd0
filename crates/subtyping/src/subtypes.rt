// Function types, subtyping, and the wider of two types.
ghost use Rattle.std.specs.Prelude.{◌&&◌, ◌≡◌, leb, ltb};
ghost use Rattle.program.specs.Layout.{types_of};
ghost use Rattle.typing.specs.Subtyping.{subtype as subtype_of, wider as wider_of};
ghost use Rattle.program.specs.Search.{found_model};
ghost use Rattle.subtyping.specs.Known.{KnownSheet, Answered};

use crate::known::{Known, knows, note};
use program::records::Counts;

// Whether t is a function type of a sheet with these counts.
pub fn is_function(c: Counts, t: u16) -> bool
    ensures { result ≡ (leb 2 t && ltb t c.types) }
{
    if t < 2 {
        return false;
    }
    t < c.types
}

// Whether a is a subtype of b: arguments are compared with the sides exchanged. Latent sets come first, as they cost least. A pair that is known is
// not compared again.
pub fn subtype(s: &[u8], c: Counts, known: &mut Known, a: u16, b: u16) -> bool
    requires { KnownSheet s.now c known.old }
    ensures { Answered (types_of s.now) result (subtype_of (types_of s.now) a b) known.new }
{
    if a == b {
        return true;
    }
    if !is_function(c, a) {
        return false;
    }
    if !is_function(c, b) {
        return false;
    }
    if knows(known, a, b) {
        return true;
    }
    let f = accessors::type_record(s, c, a);
    let g = accessors::type_record(s, c, b);
    if !privileges::subset(f.latent, g.latent) {
        return false;
    }
    if !subtype(s, c, known, g.arg, f.arg) {
        return false;
    }
    if !subtype(s, c, known, f.res, g.res) {
        return false;
    }
    note(known, a, b);
    true
}

// The wider of two types, if one is a subtype of the other. Equal types, the common case, pass the first test at once.
pub fn wider(s: &[u8], c: Counts, known: &mut Known, a: u16, b: u16) -> Option<u16>
    requires { KnownSheet s.now c known.old }
    ensures { Answered (types_of s.now) (found_model result) (wider_of (types_of s.now) a b) known.new }
{
    if subtype(s, c, known, a, b) {
        return Some(b);
    }
    if subtype(s, c, known, b, a) {
        return Some(a);
    }
    None
}
