// The judgement of one term of a sheet, in the bindings and under the principal that it has there.
#![tactic(auto)]

mod find;

ghost use Rattle.std.specs.Prelude.{◌≡◌};
ghost use Rattle.accessors.specs.Internal.{FormedSheet};
ghost use Rattle.places.specs.Internal.{ReadyPlace};
ghost use Rattle.subterms.specs.Judging.{judging};
ghost use Rattle.subterms.specs.Answers.{judged_model};
ghost use Rattle.judging.specs.Internal.{judged_in, judged_at};

use crate::find::find;
use checker::infer::infer;
use places::{Place, root};
use program::records::Counts;
use subterms::answer::{Judged, JudgingRefusal, TermJudgement};
use subtyping::known::{KNOWN_WORDS, Known};
use typing::answer::Typed;

// The type and needs of the term with a number and the principal that it stands under, on any bytes; or its first fault; no such term; or the reader's
// refusal.
pub fn judgement(sheet: &[u8], term: u32) -> Judged
    ensures { judged_model result ≡ judging sheet.now term }
{
    let c = decoder::decode(sheet)?;
    judgement_readable(sheet, c, term)
}

// The same of a readable sheet with its counts.
fn judgement_readable(s: &[u8], c: Counts, term: u32) -> Judged
    requires { FormedSheet s.now c }
    ensures { judged_model result ≡ judged_in s.now term }
{
    let at = find(s, c, Some(root(c)), term).ok_or(JudgingRefusal::NoTerm)?;
    judgement_at(s, c, at)
}

// What the rules say of the term at a place.
fn judgement_at(s: &[u8], c: Counts, at: Place) -> Judged
    requires { ReadyPlace s.now c at }
    ensures { judged_model result ≡ judged_at s.now at }
{
    let mut known: Known = [0; KNOWN_WORDS];
    let Typed { ty, needs } = infer(s, c, &mut known, at.term, at.bindings, at.principal)?;
    Ok(TermJudgement {
        principal: at.principal,
        ty,
        needs,
    })
}
