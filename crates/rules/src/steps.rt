// Each kind's rule once its children are judged: the judgement of a term from that of its last child, the earlier ones being typed.
ghost use Rattle.std.specs.Prelude.{true, ◌≡◌, ◌<◌, ◌≤◌};
ghost use Rattle.privileges.specs.Sets.{privilege_count};
ghost use Rattle.program.specs.Limits.{max_nesting};
ghost use Rattle.program.specs.Layout.{types_of, guard_in};
ghost use Rattle.typing.specs.Rules.{post_needs};
ghost use Rattle.typing.specs.Checking.{joined as joined_of};
ghost use Rattle.program.specs.Decoding.{is_guard};
ghost use Rattle.program.specs.Search.{found_model};
ghost use Rattle.subtyping.specs.Known.{KnownSheet, KnownSheetPrivilege, Answered};
ghost use Rattle.rules.specs.Inference.{inferred_model, context};
ghost use Rattle.rules.specs.Steps.{
  leaf_step,
  check_step,
  enable_step,
  sign_step,
  post_step,
  test_step,
  if_step,
  binary_step,
  body_step,
  function_step,
  letrec_step,
  call_step,
  binary_result,
};

use crate::bindings::{Bindings, lookup};
use program::limits::NO_GUARD;
use program::records::{Counts, TermRecord, TypeRecord};
use subtyping::known::Known;
use subtyping::subtypes::{is_function, subtype, wider};
use typing::answer::{Fault, Typed};

// A boolean, a number or a variable.
#[tactic(auto, unfolding(crate::specs::Steps::leaf_step))]
pub fn leaf(t: u16, x: TermRecord, b: Bindings) -> Result<Typed, Fault>
    requires { b.len ≤ max_nesting }
    ensures { inferred_model result ≡ leaf_step x t (context b) }
{
    let kind = x.kind;
    match kind {
        0 => Ok(Typed { ty: 0, needs: 0 }),
        1 => Ok(Typed { ty: 1, needs: 0 }),
        _ => {
            let ty = lookup(b, x.first).ok_or(Fault::Variable(t))?;
            Ok(Typed { ty, needs: 0 })
        }
    }
}

// Of a check of privilege p: its child's judgement.
#[tactic(auto, unfolding(crate::specs::Steps::check_step))]
pub fn checked(p: u8, j: Result<Typed, Fault>) -> Result<Typed, Fault>
    requires { p < privilege_count }
    ensures { inferred_model result ≡ check_step p (inferred_model j) }
{
    let Typed { ty, needs } = j?;
    Ok(Typed {
        ty,
        needs: privileges::insert(p, needs),
    })
}

// Of an enable of privilege p, where the signing principal may use the set `authorised`: its child's judgement.
#[tactic(auto, unfolding(crate::specs::Steps::enable_step))]
pub fn enabled(authorised: u32, p: u8, j: Result<Typed, Fault>) -> Result<Typed, Fault>
    requires { p < privilege_count }
    ensures { inferred_model result ≡ enable_step authorised p (inferred_model j) }
{
    let Typed { ty, needs } = j?;
    if privileges::contains(p, authorised) {
        Ok(Typed {
            ty,
            needs: privileges::remove(p, needs),
        })
    } else {
        Ok(Typed { ty, needs })
    }
}

// Of a sign, whose principal may use the set `authorised`: its child's judgement.
#[tactic(auto, unfolding(crate::specs::Steps::sign_step))]
pub fn signed(authorised: u32, t: u16, j: Result<Typed, Fault>) -> Result<Typed, Fault>
    ensures { inferred_model result ≡ sign_step authorised t (inferred_model j) }
{
    let Typed { ty, needs } = j?;
    if privileges::subset(needs, authorised) {
        Ok(Typed { ty, needs })
    } else {
        Err(Fault::SignNeeds(t))
    }
}

// The needs of a post whose channel has this guard byte: its number's, with the privilege of the guard.
fn post_needs(guard: u8, needs: u32) -> u32
    requires { is_guard guard ≡ true }
    ensures { result ≡ post_needs (guard_in guard) needs }
{
    if guard == NO_GUARD {
        needs
    } else {
        privileges::insert(guard, needs)
    }
}

// Of a post whose channel has this guard byte: its child's judgement.
#[tactic(auto, unfolding(crate::specs::Steps::post_step))]
pub fn posted(guard: u8, t: u16, j: Result<Typed, Fault>) -> Result<Typed, Fault>
    requires { is_guard guard ≡ true }
    ensures { inferred_model result ≡ post_step (guard_in guard) t (inferred_model j) }
{
    let Typed { ty, needs } = j?;
    if ty == 1 {
        Ok(Typed {
            ty: 1,
            needs: post_needs(guard, needs),
        })
    } else {
        Err(Fault::Type(t))
    }
}

// Of two branches: the wider of their types, if there is one, and the needs of the term.
pub fn joined(t: u16, w: Option<u16>, needs: u32) -> Result<Typed, Fault>
    ensures { inferred_model result ≡ joined_of t (found_model w) needs }
{
    let ty = w.ok_or(Fault::Branches(t))?;
    Ok(Typed { ty, needs })
}

// Of a test of privilege p: the first branch's type and needs, of which p is taken out, and the second's judgement.
#[tactic(auto, unfolding(crate::specs::Steps::test_step))]
pub fn tested(
    s: &[u8],
    c: Counts,
    known: &mut Known,
    p: u8,
    t: u16,
    first: Typed,
    j: Result<Typed, Fault>,
) -> Result<Typed, Fault>
    requires { KnownSheetPrivilege s.now c known.old p }
    ensures { Answered (types_of s.now) (inferred_model result) (test_step (types_of s.now) p t first.ty first.needs (inferred_model j))
        known.new }
{
    let Typed { ty, needs } = j?;
    let w = wider(s, c, known, first.ty, ty);
    let yes = privileges::remove(p, first.needs);
    let both = privileges::union(yes, needs);
    joined(t, w, both)
}

// Of an if: the condition's type and needs, the first branch's, and the second's judgement.
#[tactic(auto, unfolding(crate::specs::Steps::if_step))]
pub fn branched(
    s: &[u8],
    c: Counts,
    known: &mut Known,
    t: u16,
    condition: Typed,
    first: Typed,
    j: Result<Typed, Fault>,
) -> Result<Typed, Fault>
    requires { KnownSheet s.now c known.old }
    ensures { Answered (types_of s.now) (inferred_model result)
        (if_step (types_of s.now) t condition.ty condition.needs first.ty first.needs (inferred_model j))
        known.new }
{
    let Typed { ty, needs } = j?;
    if 0 < condition.ty {
        return Err(Fault::Type(t));
    }
    let w = wider(s, c, known, first.ty, ty);
    let both = privileges::union(first.needs, needs);
    let all = privileges::union(condition.needs, both);
    joined(t, w, all)
}

// Less gives a boolean, sum and difference a number.
#[tactic(auto, unfolding(crate::specs::Steps::binary_result))]
pub fn binary_result(kind: u8) -> u16
    ensures { result ≡ binary_result kind }
{
    if kind == 13 { 0 } else { 1 }
}

// Of an operation on numbers: what it gives, the first operand's type and needs, and the second's judgement.
#[tactic(auto, unfolding(crate::specs::Steps::binary_step))]
pub fn computed(res: u16, t: u16, first: Typed, j: Result<Typed, Fault>) -> Result<Typed, Fault>
    ensures { inferred_model result ≡ binary_step res t first.ty first.needs (inferred_model j) }
{
    let Typed { ty, needs } = j?;
    if first.ty == 1 && ty == 1 {
        Ok(Typed {
            ty: res,
            needs: privileges::union(first.needs, needs),
        })
    } else {
        Err(Fault::Type(t))
    }
}

// The tests of a function's body, 10 before 12; `j` if it passes them.
#[tactic(auto, unfolding(crate::specs::Steps::body_step))]
pub fn body_fits(
    f: TypeRecord,
    t: u16,
    body: Typed,
    j: Result<Typed, Fault>,
) -> Result<Typed, Fault>
    ensures { inferred_model result ≡ body_step f t body.ty body.needs (inferred_model j) }
{
    if body.ty != f.res {
        return Err(Fault::Type(t));
    }
    if !privileges::subset(body.needs, f.latent) {
        return Err(Fault::BodyNeeds(t));
    }
    j
}

// Of a function of type `fun`, whose record is f: its body's judgement.
#[tactic(auto, unfolding(crate::specs::Steps::function_step))]
pub fn function_of(f: TypeRecord, fun: u16, t: u16, j: Result<Typed, Fault>) -> Result<Typed, Fault>
    ensures { inferred_model result ≡ function_step f fun t (inferred_model j) }
{
    let body = j?;
    body_fits(f, t, body, Ok(Typed { ty: fun, needs: 0 }))
}

// Of a letrec, whose function's type has the record f: the body's type and needs, and the rest's judgement.
#[tactic(auto, unfolding(crate::specs::Steps::letrec_step))]
pub fn letrec_of(
    f: TypeRecord,
    t: u16,
    body: Typed,
    rest: Result<Typed, Fault>,
) -> Result<Typed, Fault>
    ensures { inferred_model result ≡ letrec_step f t body.ty body.needs (inferred_model rest) }
{
    let Typed { ty, needs } = rest?;
    let all = privileges::union(f.latent, needs);
    body_fits(f, t, body, Ok(Typed { ty, needs: all }))
}

// Of a call: the function's type and needs, and the argument's judgement.
#[tactic(auto, unfolding(crate::specs::Steps::call_step))]
pub fn call_of(
    s: &[u8],
    c: Counts,
    known: &mut Known,
    t: u16,
    function: Typed,
    j: Result<Typed, Fault>,
) -> Result<Typed, Fault>
    requires { KnownSheet s.now c known.old }
    ensures { Answered (types_of s.now) (inferred_model result) (call_step (types_of s.now) t function.ty function.needs (inferred_model j))
        known.new }
{
    let Typed { ty, needs } = j?;
    if !is_function(c, function.ty) {
        return Err(Fault::NotFunction(t));
    }
    let f = accessors::type_record(s, c, function.ty);
    if !subtype(s, c, known, ty, f.arg) {
        return Err(Fault::Argument(t));
    }
    let both = privileges::union(function.needs, needs);
    Ok(Typed {
        ty: f.res,
        needs: privileges::union(f.latent, both),
    })
}
