// Four lines, one unit: the line whose turn it is has its oldest job run. specs/Serving.antt has the paper's words.
#![tactic(auto)]

ghost use Rattle.std.specs.Prelude.{true, [], ◌≡◌};
ghost use Rattle.interp.specs.Answers.{after, buffers_of, run_model};
ghost use Rattle.queues.specs.Queues.{inside as inside_of};
ghost use Rattle.queues.specs.Answers.{job_model, lines_model};
ghost use Rattle.lines.specs.Serving.{job_run, serve_of};
ghost use Rattle.semantics.specs.Runs.{post_count};
ghost use Rattle.lines.specs.Answers.{served_model};

pub mod answer;

use answer::{Outside, Served};
use interp::answer::Run;
use largest::run_largest;
use program::limits::MAX_CELLS;
use queues::inside;
use queues::state::{Job, Lines};

// The run of a job. What is left of the list of posts, from the place on, is lent on to it.
fn run_job(job: Job, place: usize, store: &[u8], cells: &mut [u8], posts: &mut [u32]) -> Run
    requires { inside_of (job_model job) store.now ≡ true }
    ensures { after result cells.new posts.new []
        ≡ job_run (job_model job) place store.now (buffers_of cells.old posts.old []) }
{
    let from = job.offset;
    let to = from + job.length;
    let at = place.min(posts.len());
    let right = cells.len() == MAX_CELLS;
    run_largest(&store[from..to], job.calls, right, cells, &mut posts[at..])
}

// How many posts a run made. One that was refused made none.
fn posts_made(run: &Run) -> usize
    ensures { result ≡ post_count (run_model run.now) }
{
    match run {
        Ok(ran) => ran.made.posts,
        Err(_) => 0,
    }
}

// Serves the line whose turn it is: its oldest job is run, or refused, and is gone. With no job nothing changes.
pub fn serve(lines: &mut Lines, store: &[u8], cells: &mut [u8], posts: &mut [u32]) -> Option<Served>
    ensures { served_model result lines.new cells.new posts.new
        ≡ serve_of (lines_model lines.old) store.now (buffers_of cells.old posts.old []) }
{
    let line = lines.in_turn()?;
    let job = lines.take_turn(line);
    if !inside(job.offset, job.length, store.len()) {
        return Some(Served {
            line: line as u32,
            answer: Err(Outside),
        });
    }
    let run = run_job(job, lines.place, store, cells, posts);
    lines.place += posts_made(&run);
    Some(Served {
        line: line as u32,
        answer: Ok(run),
    })
}
