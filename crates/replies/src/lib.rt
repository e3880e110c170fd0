// The numbers of an answer. specs/Replies.antt says which of the eight is which.
#![tactic(auto)]

ghost use Rattle.std.specs.Prelude.{◌≡◌, ◌≤◌, length};
ghost use Rattle.typing.specs.Answers.{verdict_model};
ghost use Rattle.interp.specs.Answers.{run_model, outcome_model, counts_model};
ghost use Rattle.semantics.specs.Claims.{Few};
ghost use Rattle.replies.specs.Replies.{answer_numbers, refusal, verdict_reply, finished, run_reply};
ghost use Rattle.replies.specs.Internal.{reply_model, of_decoded, with_counts, RunReplyFits, Put};

use interp::answer::{Ground, Run, RunCounts};
use numbers::Code;
use program::answer::Refusal;
use program::records::Counts;
use stores::values::Stop;
use typing::answer::{Accepted, Rejection};

// The numbers of an answer, and of one with a ninth behind them.
pub const ANSWER_NUMBERS: usize = 8;

pub const LONG_ANSWER: usize = ANSWER_NUMBERS + 1;

#[derive(Clone, Copy)]
pub struct Reply {
    pub status: u32,
    pub numbers: [u32; ANSWER_NUMBERS],
}

// A refusal, by its number and place.
pub fn refused(x: Code) -> Reply
    ensures { reply_model result ≡ refusal x.cause x.place }
{
    Reply {
        status: 2,
        numbers: [x.cause as u32, x.place as u32, 0, 0, 0, 0, 0, 0],
    }
}

pub fn of_decoded(d: Result<Counts, Refusal>) -> Reply
    ensures { reply_model result ≡ of_decoded d }
{
    match d {
        Err(f) => refused(Code::from(f)),
        Ok(c) => Reply {
            status: 0,
            numbers: [
                0,
                0,
                0,
                c.terms as u32,
                c.principals as u32,
                c.types as u32,
                0,
                0,
            ],
        },
    }
}

pub fn of_verdict(v: Result<Accepted, Rejection>) -> Reply
    ensures { reply_model result ≡ verdict_reply (verdict_model v) }
{
    match v {
        Ok(Accepted { terms, ty, needs }) => Reply {
            status: 0,
            numbers: [0, 0, ty as u32, terms as u32, 0, 0, 0, needs],
        },
        Err(f) => refused(Code::from(f)),
    }
}

// What a run tells, with its counts.
pub fn counted(status: u32, first: Code, sort: u32, value: u32, m: RunCounts) -> Reply
    requires { Few (counts_model m) }
    ensures { reply_model result ≡ with_counts status first.cause first.place sort value m }
{
    Reply {
        status: status,
        numbers: [
            first.cause as u32,
            first.place as u32,
            sort,
            value,
            m.calls as u32,
            m.cells as u32,
            m.posts as u32,
            m.saturated as u32,
        ],
    }
}

fn of_outcome(o: Result<Ground, Stop>, m: RunCounts) -> Reply
    requires { Few (counts_model m) }
    ensures { reply_model result ≡ finished (outcome_model o) (counts_model m) }
{
    let none = Code { cause: 0, place: 0 };
    match o {
        Err(x) => counted(1, Code::from(x), 0, 0, m),
        Ok(Ground::Bool(b)) => counted(0, none, 0, b as u32, m),
        Ok(Ground::Num(n)) => counted(0, none, 1, n as u32, m),
    }
}

pub fn of_run(x: Run) -> Reply
    requires { RunReplyFits x }
    ensures { reply_model result ≡ run_reply (run_model x) }
{
    match x {
        Err(f) => refused(Code::from(f)),
        Ok(ran) => of_outcome(ran.outcome, ran.made),
    }
}

// Writes the eight numbers into the caller's list and gives the status.
pub fn put(reply: Reply, answer: &mut [u32]) -> u32
    requires { answer_numbers ≤ length answer.old }
    ensures { Put reply answer.old result answer.new }
{
    answer[..ANSWER_NUMBERS].copy_from_slice(&reply.numbers);
    reply.status
}
