// Whether a sheet names a privilege, for C. include/sovzedal.h documents each argument.
#![tactic(auto)]

ghost use Rattle.std.specs.Prelude.{◌≡◌};
ghost use Rattle.replies.specs.Replies.{replied, returned_reply};
ghost use Rattle.replies.specs.Internal.{reply_model};
ghost use Rattle.irrelevance.specs.Naming.{naming};
ghost use Rattle.irrelevance.specs.Answers.{named_model};
ghost use Rattle.capi_names.specs.Entries.{names_reply};

use irrelevance::answer::NamingRefusal;
use numbers::Code;
use replies::{ANSWER_NUMBERS, Reply, put, refused};

pub fn names(sheet: &[u8], privilege: u32, answer: &mut [u32]) -> u32
    ensures { returned_reply result answer.new ≡ replied answer.old (names_reply (naming sheet.now privilege)) }
{
    if answer.len() < ANSWER_NUMBERS {
        return 3;
    }
    put(of_named(naming::names(sheet, privilege)), answer)
}

fn of_named(n: Result<Option<u16>, NamingRefusal>) -> Reply
    ensures { reply_model result ≡ names_reply (named_model n) }
{
    match n {
        Ok(Some(t)) => Reply {
            status: 0,
            numbers: [0, 0, 1, t as u32, 0, 0, 0, 0],
        },
        Ok(None) => Reply {
            status: 0,
            numbers: [0, 0, 0, 0, 0, 0, 0, 0],
        },
        Err(NamingRefusal::Unreadable(f)) => refused(Code::from(f)),
        Err(NamingRefusal::NoPrivilege) => Reply {
            status: 2,
            numbers: [30, 0, 0, 0, 0, 0, 0, 0],
        },
    }
}
