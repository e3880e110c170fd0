// The lean sheet, for C: it goes into a lent buffer. include/sovzedal.h documents each argument, and specs/Theorems.antt says what a call tells of the sheet
// that then stands there.
#![tactic(auto)]

ghost use Rattle.std.specs.Prelude.{◌≡◌};
ghost use Rattle.replies.specs.Internal.{reply_model};
ghost use Rattle.erasure.specs.Answers.{erased_model};
ghost use Rattle.capi_lean.specs.Entries.{erase_reply, erase_call, returned_erase};

use erasure::answer::ErasureRefusal;
use numbers::Code;
use replies::{ANSWER_NUMBERS, Reply, put, refused};

pub fn erase(sheet: &[u8], lean: &mut [u8], answer: &mut [u32]) -> u32
    ensures { returned_erase result answer.new lean.new
        ≡ erase_call sheet.now lean.old answer.old }
{
    if answer.len() < ANSWER_NUMBERS {
        return 3;
    }
    put(of_erased(lean::erase(sheet, lean)), answer)
}

// The lean sheet's length, or the refusal.
fn of_erased(x: Result<u16, ErasureRefusal>) -> Reply
    ensures { reply_model result ≡ erase_reply (erased_model x) }
{
    match x {
        Ok(length) => Reply {
            status: 0,
            numbers: [0, 0, 0, length as u32, 0, 0, 0, 0],
        },
        Err(ErasureRefusal::Rejected(f)) => refused(Code::from(f)),
        Err(ErasureRefusal::NotErasable) => refused(Code {
            cause: 32,
            place: 0,
        }),
        Err(ErasureRefusal::NoRoom) => refused(Code {
            cause: 33,
            place: 0,
        }),
    }
}
