// Runs with a record, for C: the entries go into lent bytes, and their number follows the eight of a run. include/sovzedal.h documents each argument.
#![tactic(auto)]

ghost use Rattle.std.specs.Prelude.{[], ◌≡◌};
ghost use Rattle.semantics.specs.Runs.{eager as eager_runner, lazy as lazy_runner};
ghost use Rattle.semantics.specs.Recording.{recording};
ghost use Rattle.interp.specs.Answers.{run_model, request_of, buffers_of, run_of, entries_of};
ghost use Rattle.replies.specs.Replies.{run_reply, written_nine, enforce_flag, returned_reply};
ghost use Rattle.capi_record.specs.Entries.{record_call, returned_record};
ghost use Rattle.capi_record.specs.Internal.{RecordReplyFitsIn};

use interp::answer::{RecordedRun, Run, RunRefusal};
use replies::{ANSWER_NUMBERS, LONG_ANSWER, of_run, put};

fn run_of(r: Result<RecordedRun, RunRefusal>) -> Run
    ensures { result ≡ run_of r }
{
    match r {
        Ok(recorded) => Ok(recorded.ran),
        Err(f) => Err(f),
    }
}

// A run that was refused has no entry.
fn entries_of(r: Result<RecordedRun, RunRefusal>) -> usize
    ensures { result ≡ entries_of r }
{
    match r {
        Ok(recorded) => recorded.entries,
        Err(_) => 0,
    }
}

// Writes the nine numbers and gives the status.
fn put_nine(r: Result<RecordedRun, RunRefusal>, answer: &mut [u32]) -> u32
    requires { RecordReplyFitsIn r answer.old }
    ensures { returned_reply result answer.new ≡ written_nine (run_reply (run_model (run_of r))) (entries_of r) answer.old }
{
    let status = put(of_run(run_of(r)), answer);
    answer[ANSWER_NUMBERS] = entries_of(r) as u32;
    status
}

// A run that holds the granted set. It and the next are two functions, since the interface for C has an entry for each.
pub fn eager(
    sheet: &[u8],
    start: &[u32],
    calls: u32,
    depth: u32,
    enforce: u32,
    cells: &mut [u8],
    posts: &mut [u32],
    noted: &mut [u8],
    answer: &mut [u32],
) -> u32
    ensures { returned_record result answer.new (buffers_of cells.new posts.new []) noted.new
        ≡ record_call answer.old (buffers_of cells.old posts.old []) noted.old
        (recording sheet.now (request_of eager_runner (enforce_flag enforce) start.now calls depth)
        (buffers_of cells.old posts.old []) noted.old) }
{
    if answer.len() < LONG_ANSWER {
        return 3;
    }
    let r = interp::record_eager(
        sheet,
        start,
        calls,
        depth,
        enforce != 0,
        cells,
        posts,
        noted,
    );
    put_nine(r, answer)
}

// A run that walks the frames of a store of 6,496 numbers.
pub fn lazy(
    sheet: &[u8],
    start: &[u32],
    calls: u32,
    depth: u32,
    enforce: u32,
    cells: &mut [u8],
    posts: &mut [u32],
    frames: &mut [u32],
    noted: &mut [u8],
    answer: &mut [u32],
) -> u32
    ensures { returned_record result answer.new (buffers_of cells.new posts.new frames.new) noted.new
        ≡ record_call answer.old (buffers_of cells.old posts.old frames.old) noted.old
        (recording sheet.now (request_of lazy_runner (enforce_flag enforce) start.now calls depth)
        (buffers_of cells.old posts.old frames.old) noted.old) }
{
    if answer.len() < LONG_ANSWER {
        return 3;
    }
    let r = interp::record_lazy(
        sheet,
        start,
        calls,
        depth,
        enforce != 0,
        cells,
        posts,
        frames,
        noted,
    );
    put_nine(r, answer)
}
