// The judgement of one term of a sheet, for C. include/sovzedal.h documents each argument.
#![tactic(auto)]

ghost use Rattle.std.specs.Prelude.{◌≡◌};
ghost use Rattle.replies.specs.Replies.{replied, returned_reply};
ghost use Rattle.replies.specs.Internal.{reply_model};
ghost use Rattle.subterms.specs.Judging.{judging};
ghost use Rattle.subterms.specs.Answers.{judged_model};
ghost use Rattle.capi_term.specs.Entries.{term_reply};

use numbers::Code;
use replies::{ANSWER_NUMBERS, Reply, put, refused};
use subterms::answer::{Judged, JudgingRefusal, TermJudgement};

pub fn term(sheet: &[u8], term: u32, answer: &mut [u32]) -> u32
    ensures { returned_reply result answer.new ≡ replied answer.old (term_reply (judging sheet.now term)) }
{
    if answer.len() < ANSWER_NUMBERS {
        return 3;
    }
    put(of_judged(judging::judgement(sheet, term)), answer)
}

fn of_judged(j: Judged) -> Reply
    ensures { reply_model result ≡ term_reply (judged_model j) }
{
    match j {
        Ok(
            TermJudgement {
                principal,
                ty,
                needs,
            },
        ) => Reply {
            status: 0,
            numbers: [0, 0, ty as u32, principal as u32, 0, 0, 0, needs],
        },
        Err(JudgingRefusal::Faulty(f)) => refused(Code::from(f)),
        Err(JudgingRefusal::NoTerm) => Reply {
            status: 2,
            numbers: [37, 0, 0, 0, 0, 0, 0, 0],
        },
        Err(JudgingRefusal::Unreadable(f)) => refused(Code::from(f)),
    }
}
