// The unit's record held against the office's, for C. include/sovzedal.h documents each argument.
#![tactic(auto)]

ghost use Rattle.std.specs.Prelude.{◌≡◌, ◌≤◌};
ghost use Rattle.compare.specs.Answers.{comparison_model};
ghost use Rattle.replies.specs.Replies.{returned_reply};
ghost use Rattle.replies.specs.Internal.{reply_model};
ghost use Rattle.capi_compare.specs.Entries.{compared_reply, comparison_reply, compare_call, max_record};
ghost use Rattle.capi_compare.specs.Internal.{ComparisonReplyFits};

use compare::answer::{Comparison, Malformed};
use replies::{ANSWER_NUMBERS, Reply, put};

// Bytes of the longest record that is held: a number of its entries fits into 32 bits.
pub const MAX_RECORD: usize = 4294967295;

pub fn compare(unit: &[u8], office: &[u8], answer: &mut [u32]) -> u32
    ensures { returned_reply result answer.new ≡ compare_call unit.now office.now answer.old }
{
    if MAX_RECORD < unit.len() {
        return 3;
    }
    if MAX_RECORD < office.len() {
        return 3;
    }
    if answer.len() < ANSWER_NUMBERS {
        return 3;
    }
    let x = compare::compare(unit, office);
    put(of_comparison(x), answer)
}

fn compared_reply(fits: u32, entries: usize) -> Reply
    requires { entries ≤ max_record }
    ensures { reply_model result ≡ compared_reply fits entries }
{
    Reply {
        status: 0,
        numbers: [0, 0, fits, entries as u32, 0, 0, 0, 0],
    }
}

fn of_comparison(x: Result<Comparison, Malformed>) -> Reply
    requires { ComparisonReplyFits x }
    ensures { reply_model result ≡ comparison_reply (comparison_model x) }
{
    match x {
        Ok(Comparison::Fits(missing)) => compared_reply(1, missing),
        Ok(Comparison::Diverges(entry)) => compared_reply(0, entry),
        Err(Malformed) => Reply {
            status: 2,
            numbers: [34, 0, 0, 0, 0, 0, 0, 0],
        },
    }
}
