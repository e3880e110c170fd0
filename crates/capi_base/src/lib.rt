// What 01 asks for, for C: decoding, type-checking and the two runners. include/sovzedal.h documents each argument.
#![tactic(auto)]

ghost use Rattle.std.specs.Prelude.{[], ◌≡◌};
ghost use Rattle.semantics.specs.Runs.{eager as eager_runner, lazy as lazy_runner, run};
ghost use Rattle.interp.specs.Answers.{request_of, buffers_of};
ghost use Rattle.replies.specs.Replies.{decode_reply, typecheck_reply, replied, called, enforce_flag, returned_reply, returned_run};

use replies::{ANSWER_NUMBERS, of_decoded, of_run, of_verdict, put};

// What any bytes are as a sheet.
pub fn decode(sheet: &[u8], answer: &mut [u32]) -> u32
    ensures { returned_reply result answer.new ≡ replied answer.old (decode_reply sheet.now) }
{
    if answer.len() < ANSWER_NUMBERS {
        return 3;
    }
    put(of_decoded(decoder::decode(sheet)), answer)
}

// The type checker's verdict on a sheet.
pub fn typecheck(sheet: &[u8], answer: &mut [u32]) -> u32
    ensures { returned_reply result answer.new ≡ replied answer.old (typecheck_reply sheet.now) }
{
    if answer.len() < ANSWER_NUMBERS {
        return 3;
    }
    put(of_verdict(checker::typecheck(sheet)), answer)
}

// A run that holds the granted set. It and the next are two functions, since the interface for C has an entry for each.
pub fn eager(
    sheet: &[u8],
    start: &[u32],
    calls: u32,
    depth: u32,
    enforce: u32,
    cells: &mut [u8],
    posts: &mut [u32],
    answer: &mut [u32],
) -> u32
    ensures { returned_run result answer.new (buffers_of cells.new posts.new [])
        ≡ called answer.old (buffers_of cells.old posts.old [])
        (run sheet.now (request_of eager_runner (enforce_flag enforce) start.now calls depth)
        (buffers_of cells.old posts.old [])) }
{
    if answer.len() < ANSWER_NUMBERS {
        return 3;
    }
    let r = interp::run_eager(sheet, start, calls, depth, enforce != 0, cells, posts);
    put(of_run(r), answer)
}

// A run that walks the frames of a store of 6,496 numbers.
pub fn lazy(
    sheet: &[u8],
    start: &[u32],
    calls: u32,
    depth: u32,
    enforce: u32,
    cells: &mut [u8],
    posts: &mut [u32],
    frames: &mut [u32],
    answer: &mut [u32],
) -> u32
    ensures { returned_run result answer.new (buffers_of cells.new posts.new frames.new)
        ≡ called answer.old (buffers_of cells.old posts.old frames.old)
        (run sheet.now (request_of lazy_runner (enforce_flag enforce) start.now calls depth)
        (buffers_of cells.old posts.old frames.old)) }
{
    if answer.len() < ANSWER_NUMBERS {
        return 3;
    }
    let r = interp::run_lazy(
        sheet,
        start,
        calls,
        depth,
        enforce != 0,
        cells,
        posts,
        frames,
    );
    put(of_run(r), answer)
}
