// The types of the bindings around a term, by value. 32 places suffice: a sheet's nesting bounds its bindings (specs/Laws/Room.antt).
ghost use Rattle.std.specs.Prelude.{◌≡◌, ◌<◌, ◌≤◌};
ghost use Rattle.program.specs.Limits.{max_nesting};
ghost use Rattle.typing.specs.Rules.{lookup_type};
ghost use Rattle.program.specs.Search.{found_model};
ghost use Rattle.rules.specs.Inference.{context};
ghost use Rattle.rules.specs.Steps.{Pushed};

use program::limits::NESTING_PLACES;

// The nearest binding is the last of the first `len`.
#[derive(Clone, Copy)]
pub struct Bindings {
    pub types: [u16; NESTING_PLACES],
    pub len: usize,
}

// No bindings, as around the root.
pub fn none() -> Bindings
    ensures { result.len ≡ 0 }
{
    Bindings {
        types: [0; NESTING_PLACES],
        len: 0,
    }
}

// One binding more.
pub fn push(b: Bindings, ty: u16) -> Bindings
    requires { b.len < max_nesting }
    ensures { Pushed b ty result }
{
    let mut r = b;
    let at = b.len;
    r.types[at] = ty;
    r.len = at + 1;
    r
}

// The type of binding i, 0 for the nearest.
pub fn lookup(b: Bindings, i: u16) -> Option<u16>
    requires { b.len ≤ max_nesting }
    ensures { found_model result ≡ lookup_type (context b) i }
{
    if b.len <= (i as usize) {
        return None;
    }
    let at = b.len - 1 - (i as usize);
    Some(b.types[at])
}
