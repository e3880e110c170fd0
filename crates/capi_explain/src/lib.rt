// Why a sheet needs a privilege, for C: the chain goes into a lent list. include/sovzedal.h documents each argument.
#![tactic(auto)]

ghost use Rattle.std.specs.Prelude.{◌≡◌, ◌≤◌, length};
ghost use Rattle.program.specs.Limits.{max_nesting};
ghost use Rattle.replies.specs.Internal.{reply_model};
ghost use Rattle.capi_explain.specs.Entries.{chain_reply, explain_call, returned_explain};
ghost use Rattle.capi_explain.specs.Internal.{ExplanationReplyFits, explanation_reply, chain_left};

use chains::answer::ExplanationRefusal;
use numbers::Code;
use program::limits::NESTING_PLACES;
use replies::{ANSWER_NUMBERS, Reply, put, refused};

pub fn explain(sheet: &[u8], privilege: u32, chain: &mut [u16], answer: &mut [u32]) -> u32
    ensures { returned_explain result answer.new chain.new
        ≡ explain_call sheet.now privilege chain.old answer.old }
{
    if chain.len() < NESTING_PLACES {
        return 3;
    }
    if answer.len() < ANSWER_NUMBERS {
        return 3;
    }
    let e = explain::explain(sheet, privilege);
    let x = e.answer;
    let terms = e.terms;
    keep(x, terms, chain);
    put(of_explained(x), answer)
}

fn counted(terms: usize) -> Reply
    requires { terms ≤ max_nesting }
    ensures { reply_model result ≡ chain_reply terms }
{
    Reply {
        status: 0,
        numbers: [0, 0, 0, terms as u32, 0, 0, 0, 0],
    }
}

fn of_explained(x: Result<Option<usize>, ExplanationRefusal>) -> Reply
    requires { ExplanationReplyFits x }
    ensures { reply_model result ≡ explanation_reply x }
{
    match x {
        Ok(Some(n)) => counted(n),
        Ok(None) => counted(0),
        Err(ExplanationRefusal::Rejected(f)) => refused(Code::from(f)),
        Err(ExplanationRefusal::NoPrivilege) => Reply {
            status: 2,
            numbers: [30, 0, 0, 0, 0, 0, 0, 0],
        },
    }
}

// Writes the terms of a chain, or zeros where there is none. A refusal leaves the list.
fn keep(
    x: Result<Option<usize>, ExplanationRefusal>,
    terms: [u16; NESTING_PLACES],
    chain: &mut [u16],
)
    requires { max_nesting ≤ length chain.old }
    ensures { chain.new ≡ chain_left x terms chain.old }
{
    if x.is_ok() {
        chain[..NESTING_PLACES].copy_from_slice(&terms);
    }
}
