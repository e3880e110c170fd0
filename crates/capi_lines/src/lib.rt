// The four lines for C: their state as a list of numbers, and the two entries over it. include/sovzedal.h documents each argument.
#![tactic(auto)]

ghost use Rattle.std.specs.Prelude.{[], ◌≡◌};
ghost use Rattle.interp.specs.Answers.{buffers_of};
ghost use Rattle.queues.specs.Answers.{job_of};
ghost use Rattle.capi_lines.specs.Entries.{lines_add, returned_add, lines_serve, returned_serve};

pub mod reply;
pub mod state;

use queues::state::Job;
use replies::{ANSWER_NUMBERS, LONG_ANSWER, put};
use reply::{line_of, of_added, of_served};
use state::{STATE_NUMBERS, keep_added, keep_served, load};

// A job for a line.
pub fn add(
    state: &mut [u64],
    line: u32,
    offset: usize,
    length: usize,
    calls: u32,
    store: &[u8],
    answer: &mut [u32],
) -> u32
    ensures { returned_add result answer.new state.new
        ≡ lines_add state.old line (job_of offset length calls) store.now answer.old }
{
    if state.len() != STATE_NUMBERS {
        return 3;
    }
    if answer.len() < ANSWER_NUMBERS {
        return 3;
    }
    let mut lines = load(state);
    let job = Job {
        offset,
        length,
        calls,
    };
    let added = lines.add(line, job, store);
    keep_added(added, &lines, state);
    put(of_added(added), answer)
}

// The next job has its turn.
pub fn serve(
    state: &mut [u64],
    store: &[u8],
    cells: &mut [u8],
    posts: &mut [u32],
    answer: &mut [u32],
) -> u32
    ensures { returned_serve result answer.new state.new (buffers_of cells.new posts.new [])
        ≡ lines_serve state.old store.now (buffers_of cells.old posts.old []) answer.old }
{
    if state.len() != STATE_NUMBERS {
        return 3;
    }
    if answer.len() < LONG_ANSWER {
        return 3;
    }
    let mut lines = load(state);
    let served = lines::serve(&mut lines, store, cells, posts);
    keep_served(served, &lines, state);
    let status = put(of_served(served), answer);
    answer[ANSWER_NUMBERS] = line_of(served);
    status
}
