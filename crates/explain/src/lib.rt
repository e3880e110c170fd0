// Why a sheet needs a privilege: the chain of terms from the root to the cause.
#![tactic(auto)]

ghost use Rattle.std.specs.Prelude.{◌≡◌, leb};
ghost use Rattle.accessors.specs.Internal.{ReadableSheet};
ghost use Rattle.chains.specs.Explaining.{explained_in, explanation};
ghost use Rattle.chains.specs.Answers.{ExplainedAs};
ghost use Rattle.following.specs.Internal.{without_chain, RootNeeds};
ghost use Rattle.program.specs.Limits.{max_privilege};

use chains::answer::{Explained, ExplanationRefusal};
use following::chain::follow;
use program::limits::{MAX_PRIVILEGE_NUMBER, NESTING_PLACES};
use program::records::Counts;

// Why the sheet needs a privilege, on any bytes and any number: the type checker's refusals, then 30, then that it is not needed or the chain.
pub fn explain(sheet: &[u8], privilege: u32) -> Explained
    ensures { ExplainedAs result (explanation sheet.now privilege) }
{
    match decoder::decode(sheet) {
        Ok(c) => explain_readable(sheet, c, privilege),
        Err(f) => without_chain(Err(f.into())),
    }
}

// The same of a readable sheet with its counts.
fn explain_readable(s: &[u8], c: Counts, privilege: u32) -> Explained
    requires { ReadableSheet s.now c }
    ensures { ExplainedAs result (explanation s.now privilege) }
{
    match checker::typecheck_readable(s, c) {
        Ok(x) => explain_needs(s, c, x.needs, privilege),
        Err(r) => without_chain(Err(r.into())),
    }
}

// Why an accepted sheet with these needs has the privilege among them.
fn explain_needs(s: &[u8], c: Counts, needs: u32, privilege: u32) -> Explained
    requires { RootNeeds s.now c needs }
    ensures { ExplainedAs result (explained_in s.now privilege needs (leb privilege max_privilege)) }
{
    if MAX_PRIVILEGE_NUMBER < privilege {
        return without_chain(Err(ExplanationRefusal::NoPrivilege));
    }
    let p = privilege as u8;
    if privileges::contains(p, needs) {
        return follow(s, c, p);
    }
    without_chain(Ok(None))
}

fn without_chain(answer: Result<Option<usize>, ExplanationRefusal>) -> Explained
    ensures { result ≡ without_chain answer }
{
    Explained {
        answer: answer,
        terms: [0; NESTING_PLACES],
    }
}
