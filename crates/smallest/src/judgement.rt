// The judgement of a term where it stands, from those of its children.
ghost use Rattle.std.specs.Prelude.{◌≡◌};
ghost use Rattle.program.specs.Layout.{types_of};
ghost use Rattle.subtyping.specs.Known.{KnownSheet, KnownSheetPrivilege, Answered};
ghost use Rattle.rules.specs.Inference.{inferred_model};
ghost use Rattle.rules.specs.Steps.{letrec_step, call_step, if_step, test_step, binary_step, binary_result};
ghost use Rattle.typing.specs.Checking.{◌next◌};
ghost use Rattle.smallest.specs.Internal.{Judgeable, place_judgement};

use accessors::{authority, guard, term, type_record};
use places::Place;
use program::records::{Counts, TypeRecord};
use rules::steps;
use subtyping::known::Known;
use typing::answer::{Fault, Typed};

// Of a letrec whose function's type has the record f: the body's judgement and the rest's.
fn letrec(
    f: TypeRecord,
    t: u16,
    j: Result<Typed, Fault>,
    k: Result<Typed, Fault>,
) -> Result<Typed, Fault>
    ensures { inferred_model result ≡ (inferred_model j next λ τ N. letrec_step f t τ N (inferred_model k)) }
{
    steps::letrec_of(f, t, j?, k)
}

// Of a call: the function's judgement and the argument's.
fn call(
    s: &[u8],
    c: Counts,
    known: &mut Known,
    t: u16,
    i: Result<Typed, Fault>,
    j: Result<Typed, Fault>,
) -> Result<Typed, Fault>
    requires { KnownSheet s.now c known.old }
    ensures { Answered (types_of s.now) (inferred_model result)
        (inferred_model i next λ φ N. call_step (types_of s.now) t φ N (inferred_model j)) known.new }
{
    steps::call_of(s, c, known, t, i?, j)
}

// Of an if: the condition's judgement and those of the branches.
fn branches(
    s: &[u8],
    c: Counts,
    known: &mut Known,
    t: u16,
    i: Result<Typed, Fault>,
    j: Result<Typed, Fault>,
    k: Result<Typed, Fault>,
) -> Result<Typed, Fault>
    requires { KnownSheet s.now c known.old }
    ensures { Answered (types_of s.now) (inferred_model result)
        (inferred_model i next λ σ N. inferred_model j next λ τ M. if_step (types_of s.now) t σ N τ M (inferred_model k)) known.new }
{
    steps::branched(s, c, known, t, i?, j?, k)
}

// Of a test of privilege p: the judgements of the branches.
fn test(
    s: &[u8],
    c: Counts,
    known: &mut Known,
    p: u8,
    t: u16,
    i: Result<Typed, Fault>,
    j: Result<Typed, Fault>,
) -> Result<Typed, Fault>
    requires { KnownSheetPrivilege s.now c known.old p }
    ensures { Answered (types_of s.now) (inferred_model result)
        (inferred_model i next λ τ N. test_step (types_of s.now) p t τ N (inferred_model j)) known.new }
{
    steps::tested(s, c, known, p, t, i?, j)
}

// Of an operation on numbers, by its kind: the judgements of the operands.
fn binary(
    kind: u8,
    t: u16,
    i: Result<Typed, Fault>,
    j: Result<Typed, Fault>,
) -> Result<Typed, Fault>
    ensures { inferred_model result ≡ (inferred_model i next λ τ N. binary_step (binary_result kind) t τ N (inferred_model j)) }
{
    steps::computed(steps::binary_result(kind), t, i?, j)
}

// By the kind; a child that is absent is not looked at.
pub fn judgement(
    s: &[u8],
    c: Counts,
    known: &mut Known,
    at: Place,
    i: Result<Typed, Fault>,
    j: Result<Typed, Fault>,
    k: Result<Typed, Fault>,
) -> Result<Typed, Fault>
    requires { Judgeable s.now c known.old at i j k }
    ensures { Answered (types_of s.now) (inferred_model result) (place_judgement s.now at) known.new }
{
    let t = at.term;
    let x = term(s, c, t);
    let kind = x.kind;
    match kind {
        0..=2 => steps::leaf(t, x, at.bindings),
        3 => steps::function_of(type_record(s, c, x.first), x.first, t, j),
        4 => letrec(type_record(s, c, x.first), t, j, k),
        5 => call(s, c, known, t, i, j),
        6 => branches(s, c, known, t, i, j, k),
        7 => steps::checked(x.small, i),
        8 => steps::enabled(authority(s, at.principal as u32), x.small, i),
        9 => steps::signed(authority(s, x.small as u32), t, i),
        10 => test(s, c, known, x.small, t, i, j),
        11..=13 => binary(kind, t, i, j),
        _ => steps::posted(guard(s, c, x.small), t, i),
    }
}
