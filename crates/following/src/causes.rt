// What a privilege is needed for: a check that names it, a call or letrec whose latent set holds it, or a post that it guards. A call's is told where its
// function part is judged, in `chain`.
ghost use Rattle.std.specs.Prelude.{◌≡◌};
ghost use Rattle.privileges.specs.Sets.{has};
ghost use Rattle.program.specs.Layout.{types_of};
ghost use Rattle.following.specs.Internal.{FunctionTypePrivilege, NoCall, cause_at};

use accessors::{guard, term, type_record};
use places::Place;
use program::records::Counts;

// Whether the latent set of a function type has privilege p.
pub fn has_latent(s: &[u8], c: Counts, ty: u16, p: u8) -> bool
    requires { FunctionTypePrivilege s.now c ty p }
    ensures { result ≡ has p ((types_of s.now).latent ty) }
{
    let f = type_record(s, c, ty);
    privileges::contains(p, f.latent)
}

// Whether the term at a place, which is no call, is itself a cause of a need of privilege p. A new kind of cause is an arm here.
pub fn is_cause(s: &[u8], c: Counts, at: Place, p: u8) -> bool
    requires { NoCall s.now c p at }
    ensures { result ≡ cause_at s.now p at }
{
    let x = term(s, c, at.term);
    let kind = x.kind;
    match kind {
        4 => has_latent(s, c, x.first, p),
        7 => x.small == p,
        14 => guard(s, c, x.small) == p,
        _ => false,
    }
}
