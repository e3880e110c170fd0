// The judgement of a term: children in order, and nothing after the first fault.
ghost use Rattle.rules.specs.Inference.{context};
ghost use Rattle.checker.specs.Internal.{ReadyTerm, ReadyKind, ReadyBinary, InferredAs};

use accessors::{authority, guard, table_term, type_record};
use program::records::{Counts, TermRecord};
use rules::bindings::{Bindings, push};
use rules::steps;
use subtyping::known::Known;
use typing::answer::{Fault, Typed};

// The type and needs of term t under the bindings b and the principal n, or its first fault. What is known of the sheet's types is handed on.
#[cycle(inference)]
pub fn infer(
    s: &[u8],
    c: Counts,
    known: &mut Known,
    t: u16,
    b: Bindings,
    n: u8,
) -> Result<Typed, Fault>
    requires { ReadyTerm s.now c known.old t b n }
    ensures { InferredAs s.now (context b) n t result known.new }
{
    let x = table_term(s, c, t);
    let kind = x.kind;
    match kind {
        0..=2 => steps::leaf(t, x, b),
        3 => infer_function(s, c, known, t, x, b, n),
        4 => infer_letrec(s, c, known, t, x, b, n),
        5 => infer_call(s, c, known, t, x, b, n),
        6 => infer_if(s, c, known, t, x, b, n),
        7 => infer_check(s, c, known, t, x, b, n),
        8 => infer_enable(s, c, known, t, x, b, n),
        9 => infer_sign(s, c, known, t, x, b, n),
        10 => infer_test(s, c, known, t, x, b, n),
        11..=13 => infer_binary(s, c, known, t, x, b, n),
        _ => infer_post(s, c, known, t, x, b, n),
    }
}

#[cycle(inference)]
fn infer_function(
    s: &[u8],
    c: Counts,
    known: &mut Known,
    t: u16,
    x: TermRecord,
    b: Bindings,
    n: u8,
) -> Result<Typed, Fault>
    requires { ReadyKind s.now c known.old t b n x 3 }
    ensures { InferredAs s.now (context b) n t result known.new }
{
    let f = type_record(s, c, x.first);
    let inner = push(b, f.arg);
    let j = infer(s, c, known, x.second, inner, n);
    steps::function_of(f, x.first, t, j)
}

#[cycle(inference)]
fn infer_letrec(
    s: &[u8],
    c: Counts,
    known: &mut Known,
    t: u16,
    x: TermRecord,
    b: Bindings,
    n: u8,
) -> Result<Typed, Fault>
    requires { ReadyKind s.now c known.old t b n x 4 }
    ensures { InferredAs s.now (context b) n t result known.new }
{
    let f = type_record(s, c, x.first);
    let outer = push(b, x.first);
    let inner = push(outer, f.arg);
    let body = infer(s, c, known, x.second, inner, n)?;
    let rest = infer(s, c, known, x.third, outer, n);
    steps::letrec_of(f, t, body, rest)
}

#[cycle(inference)]
fn infer_call(
    s: &[u8],
    c: Counts,
    known: &mut Known,
    t: u16,
    x: TermRecord,
    b: Bindings,
    n: u8,
) -> Result<Typed, Fault>
    requires { ReadyKind s.now c known.old t b n x 5 }
    ensures { InferredAs s.now (context b) n t result known.new }
{
    let function = infer(s, c, known, x.first, b, n)?;
    let argument = infer(s, c, known, x.second, b, n);
    steps::call_of(s, c, known, t, function, argument)
}

#[cycle(inference)]
fn infer_if(
    s: &[u8],
    c: Counts,
    known: &mut Known,
    t: u16,
    x: TermRecord,
    b: Bindings,
    n: u8,
) -> Result<Typed, Fault>
    requires { ReadyKind s.now c known.old t b n x 6 }
    ensures { InferredAs s.now (context b) n t result known.new }
{
    let condition = infer(s, c, known, x.first, b, n)?;
    let first = infer(s, c, known, x.second, b, n)?;
    let second = infer(s, c, known, x.third, b, n);
    steps::branched(s, c, known, t, condition, first, second)
}

#[cycle(inference)]
fn infer_check(
    s: &[u8],
    c: Counts,
    known: &mut Known,
    t: u16,
    x: TermRecord,
    b: Bindings,
    n: u8,
) -> Result<Typed, Fault>
    requires { ReadyKind s.now c known.old t b n x 7 }
    ensures { InferredAs s.now (context b) n t result known.new }
{
    let j = infer(s, c, known, x.first, b, n);
    steps::checked(x.small, j)
}

#[cycle(inference)]
fn infer_enable(
    s: &[u8],
    c: Counts,
    known: &mut Known,
    t: u16,
    x: TermRecord,
    b: Bindings,
    n: u8,
) -> Result<Typed, Fault>
    requires { ReadyKind s.now c known.old t b n x 8 }
    ensures { InferredAs s.now (context b) n t result known.new }
{
    let j = infer(s, c, known, x.first, b, n);
    let authorised = authority(s, n as u32);
    steps::enabled(authorised, x.small, j)
}

// The child is judged under the principal that signs it.
#[cycle(inference)]
fn infer_sign(
    s: &[u8],
    c: Counts,
    known: &mut Known,
    t: u16,
    x: TermRecord,
    b: Bindings,
    n: u8,
) -> Result<Typed, Fault>
    requires { ReadyKind s.now c known.old t b n x 9 }
    ensures { InferredAs s.now (context b) n t result known.new }
{
    let j = infer(s, c, known, x.first, b, x.small);
    let authorised = authority(s, x.small as u32);
    steps::signed(authorised, t, j)
}

#[cycle(inference)]
fn infer_test(
    s: &[u8],
    c: Counts,
    known: &mut Known,
    t: u16,
    x: TermRecord,
    b: Bindings,
    n: u8,
) -> Result<Typed, Fault>
    requires { ReadyKind s.now c known.old t b n x 10 }
    ensures { InferredAs s.now (context b) n t result known.new }
{
    let first = infer(s, c, known, x.first, b, n)?;
    let second = infer(s, c, known, x.second, b, n);
    steps::tested(s, c, known, x.small, t, first, second)
}

#[cycle(inference)]
fn infer_binary(
    s: &[u8],
    c: Counts,
    known: &mut Known,
    t: u16,
    x: TermRecord,
    b: Bindings,
    n: u8,
) -> Result<Typed, Fault>
    requires { ReadyBinary s.now c known.old t b n x }
    ensures { InferredAs s.now (context b) n t result known.new }
{
    let first = infer(s, c, known, x.first, b, n)?;
    let second = infer(s, c, known, x.second, b, n);
    let result = steps::binary_result(x.kind);
    steps::computed(result, t, first, second)
}

// The privilege that guards its channel is among the needs.
#[cycle(inference)]
fn infer_post(
    s: &[u8],
    c: Counts,
    known: &mut Known,
    t: u16,
    x: TermRecord,
    b: Bindings,
    n: u8,
) -> Result<Typed, Fault>
    requires { ReadyKind s.now c known.old t b n x 14 }
    ensures { InferredAs s.now (context b) n t result known.new }
{
    let j = infer(s, c, known, x.first, b, n);
    let g = guard(s, c, x.small);
    steps::posted(g, t, j)
}
