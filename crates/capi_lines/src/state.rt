// The lines' state between a caller's list of numbers and the struct. specs/States.antt says where each number stands.
ghost use Rattle.std.specs.Prelude.{◌≡◌, ◌+◌, ◌<◌, min as least, length};
ghost use Rattle.queues.specs.Answers.{job_model, queue_model, lines_model, addition_model};
ghost use Rattle.lines.specs.Answers.{serve_model};
ghost use Rattle.capi_lines.specs.States.{state_numbers, max_allowance, job_read, queue_read, state_read, job_part, job_number, number_at, state_written};
ghost use Rattle.capi_lines.specs.Entries.{state_after, served_state};
ghost use Rattle.capi_lines.specs.Internal.{LineAt};

use lines::answer::Served;
use queues::state::{AddRefusal, Job, Lines, MAX_JOBS, MAX_LINES, Queue};

pub const STATE_NUMBERS: usize = 102;

// An allowance of more than 32 bits is read as the largest of them.
fn allowance(x: u64) -> u32
    ensures { result ≡ least x max_allowance }
{
    u32::try_from(x).unwrap_or(u32::MAX)
}

fn load_job(state: &[u64], at: usize) -> Job
    requires { at + 2 < length state.now }
    ensures { job_model result ≡ job_read state.now at }
{
    Job {
        offset: state[at] as usize,
        length: state[at + 1] as usize,
        calls: allowance(state[at + 2]),
    }
}

fn load_queue(state: &[u64], line: usize) -> Queue
    requires { LineAt state.now line }
    ensures { queue_model result ≡ queue_read state.now line }
{
    let at = 6 + 24 * line;
    let count = (state[2 + line] as usize).min(MAX_JOBS);
    let mut queue = Queue::new();
    for k in 0..count {
        queue.push(load_job(state, at + 3 * k));
    }
    queue
}

pub fn load(state: &[u64]) -> Lines
    requires { length state.now ≡ state_numbers }
    ensures { lines_model result ≡ state_read state.now }
{
    let turn = state[0] as usize;
    let place = state[1] as usize;
    Lines {
        queues: [
            load_queue(state, 0),
            load_queue(state, 1),
            load_queue(state, 2),
            load_queue(state, 3),
        ],
        turn: turn,
        place: place,
    }
}

// A part of a job: its offset, its length or its allowance.
fn part(j: Job, k: usize) -> u64
    ensures { result ≡ job_part k (job_model j) }
{
    if k == 0 {
        return j.offset as u64;
    }
    if k == 1 {
        return j.length as u64;
    }
    j.calls as u64
}

// One of the 96 numbers of the jobs.
fn job_number(lines: &Lines, i: usize) -> u64
    requires { i < 96 }
    ensures { result ≡ job_number (lines_model lines.now) i }
{
    let job = lines.queues[i / 24].job_at(i % 24 / 3);
    part(job, i % 3)
}

// The number at a place of the list.
fn number_at(lines: &Lines, i: usize) -> u64
    requires { i < state_numbers }
    ensures { result ≡ number_at (lines_model lines.now) i }
{
    if i == 0 {
        return (lines.turn % MAX_LINES) as u64;
    }
    if i == 1 {
        return lines.place as u64;
    }
    if i < 6 {
        let line = i - 2;
        return lines.queues[line].len() as u64;
    }
    job_number(lines, i - 6)
}

fn save(lines: &Lines, state: &mut [u64])
    requires { length state.old ≡ state_numbers }
    ensures { state.new ≡ state_written (lines_model lines.now) }
{
    for i in 0..STATE_NUMBERS {
        state[i] = number_at(lines, i);
    }
}

// An add that is refused leaves the list.
pub fn keep_added(added: Result<(), AddRefusal>, lines: &Lines, state: &mut [u64])
    requires { length state.old ≡ state_numbers }
    ensures { state.new ≡ state_after (addition_model added) state.old (lines_model lines.now) }
{
    if added.is_ok() {
        save(lines, state);
    }
}

// With no job the list is left.
pub fn keep_served(served: Option<Served>, lines: &Lines, state: &mut [u64])
    requires { length state.old ≡ state_numbers }
    ensures { state.new ≡ served_state (serve_model served) state.old (lines_model lines.now) }
{
    if served.is_some() {
        save(lines, state);
    }
}
