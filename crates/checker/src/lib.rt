// The type checker: 01's judge on the bytes of a sheet.
#![tactic(auto)]

pub mod infer;

ghost use Rattle.std.specs.Prelude.{◌≡◌};
ghost use Rattle.typing.specs.Verdicts.{concluded, verdict};
ghost use Rattle.typing.specs.Answers.{verdict_model};
ghost use Rattle.rules.specs.Inference.{inferred_model};
ghost use Rattle.accessors.specs.Internal.{ReadableSheet};

use crate::infer::infer;
use program::records::Counts;
use rules::bindings::none;
use subtyping::known::{KNOWN_WORDS, Known};
use typing::answer::{Accepted, Fault, Rejection, Typed};

// 01's judge, on any bytes: the reader's refusals 1 to 8 and 31, then the rules' 9 to 12 and 24 to 26, then 13.
pub fn typecheck(sheet: &[u8]) -> Result<Accepted, Rejection>
    ensures { verdict_model result ≡ verdict sheet.now }
{
    let c = decoder::decode(sheet)?;
    typecheck_readable(sheet, c)
}

// The same of a readable sheet with its counts, for those who have decoded it. The root is a sign, so that the principal named here is never looked at.
pub fn typecheck_readable(s: &[u8], c: Counts) -> Result<Accepted, Rejection>
    requires { ReadableSheet s.now c }
    ensures { verdict_model result ≡ verdict s.now }
{
    let terms = c.terms;
    let root = terms - 1;
    let mut known: Known = [0; KNOWN_WORDS];
    let j = infer(s, c, &mut known, root, none(), 0);
    conclude(terms, root, j)
}

// The verdict from the root's judgement: a root has type 0 or 1.
fn conclude(terms: u16, root: u16, j: Result<Typed, Fault>) -> Result<Accepted, Rejection>
    ensures { verdict_model result ≡ concluded terms root (inferred_model j) }
{
    let Typed { ty, needs } = j?;
    if ty < 2 {
        Ok(Accepted { terms, ty, needs })
    } else {
        Err(Fault::RootType(root).into())
    }
}
