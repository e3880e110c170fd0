// The smallest faulty piece of a sheet, for C: the place of its record stands in the answer. include/sovzedal.h documents each argument.
#![tactic(auto)]

ghost use Rattle.std.specs.Prelude.{◌≡◌};
ghost use Rattle.replies.specs.Replies.{replied, returned_reply};
ghost use Rattle.replies.specs.Internal.{reply_model};
ghost use Rattle.capi_piece.specs.Entries.{piece_reply};
ghost use Rattle.capi_piece.specs.Internal.{PieceReplyFits, located_reply};

use numbers::Code;
use piece::Located;
use replies::{ANSWER_NUMBERS, Reply, put, refused};
use subterms::answer::Faulty;

pub fn piece(sheet: &[u8], answer: &mut [u32]) -> u32
    ensures { returned_reply result answer.new ≡ replied answer.old (piece_reply sheet.now) }
{
    if answer.len() < ANSWER_NUMBERS {
        return 3;
    }
    let x = piece::locate(sheet);
    put(of_located(x), answer)
}

fn of_located(x: Located) -> Reply
    requires { PieceReplyFits x }
    ensures { reply_model result ≡ located_reply x }
{
    match x.piece {
        Err(f) => refused(Code::from(f)),
        Ok(None) => Reply {
            status: 0,
            numbers: [0, 0, 0, 0, 0, 0, 0, 0],
        },
        Ok(Some(Faulty { term, count, fault })) => {
            let f = Code::from(fault);
            Reply {
                status: 0,
                numbers: [
                    0,
                    0,
                    f.cause as u32,
                    term as u32,
                    count as u32,
                    x.at as u32,
                    x.len as u32,
                    0,
                ],
            }
        }
    }
}
