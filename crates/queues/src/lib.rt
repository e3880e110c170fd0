// Four lines, one unit: their queues of jobs, and whose turn it is. specs/Queues.antt has the paper's words.
#![tactic(auto)]

ghost use Rattle.std.specs.Prelude.{true, ◌∷◌, ◌≡◌, ◌+◌, ◌<◌, leb, drop};
ghost use Rattle.queues.specs.Queues.{max_lines, new_lines, queue_at, add_of, after_turn};
ghost use Rattle.queues.specs.Answers.{job_model, queue_model, lines_model, added_model};
ghost use Rattle.queues.specs.Internal.{has_job, Next};

pub mod queue;
pub mod state;

use state::{AddRefusal, Job, Lines, MAX_JOBS, MAX_LINES, Queue};

// Whether a part lies in a store of so many bytes.
pub fn inside(offset: usize, length: usize, size: usize) -> bool
    ensures { result ≡ leb (offset + length) size }
{
    offset <= size && length <= size - offset
}

impl Lines {
    // Four empty queues, and line 0 is due.
    pub fn new() -> Lines
        ensures { lines_model result ≡ new_lines }
    {
        Lines {
            queues: [Queue::new(), Queue::new(), Queue::new(), Queue::new()],
            turn: 0,
            place: 0,
        }
    }

    // A job for a line. A refusal leaves the lines as they were.
    pub fn add(&mut self, line: u32, job: Job, store: &[u8]) -> Result<(), AddRefusal>
        ensures { added_model result self.new
            ≡ add_of (lines_model self.old) line (job_model job) store.now }
    {
        let at = line as usize;
        if MAX_LINES <= at {
            return Err(AddRefusal::NoLine);
        }
        if !inside(job.offset, job.length, store.len()) {
            return Err(AddRefusal::Outside);
        }
        if MAX_JOBS <= self.queues[at].len() {
            return Err(AddRefusal::Full);
        }
        self.queues[at].push(job);
        Ok(())
    }

    // Whether a line has a job.
    fn waits(&self, line: usize) -> bool
        requires { line < max_lines }
        ensures { result ≡ has_job (queue_at (lines_model self.now) line) }
    {
        0 < self.queues[line].len()
    }

    // The line whose turn it is: the first from `turn` on that has a job.
    pub fn in_turn(&self) -> Option<usize>
        ensures { Next self.now result }
    {
        for k in 0..MAX_LINES {
            let line = (self.turn % MAX_LINES + k) % MAX_LINES;
            if self.waits(line) {
                return Some(line);
            }
        }
        None
    }

    // A line has had its turn: these jobs are left of it, the next line is due, and posts go on at this place.
    pub fn after_turn(&mut self, line: usize, rest: Queue, place: usize)
        requires { line < max_lines }
        ensures { lines_model self.new ≡ after_turn (lines_model self.old) line (queue_model rest) place }
    {
        self.queues[line] = rest;
        self.turn = (line + 1) % MAX_LINES;
        self.place = place;
    }

    // A line has its turn: its oldest job leaves the queue, and the next line is due.
    pub fn take_turn(&mut self, line: usize) -> Job
        requires below { line < max_lines }
        requires waits { has_job (queue_at (lines_model self.old) line) ≡ true }
        ensures oldest { queue_at (lines_model self.old) line
            ≡ job_model result ∷ drop 1 (queue_at (lines_model self.old) line) }
        ensures left { lines_model self.new
            ≡ after_turn (lines_model self.old) line (drop 1 (queue_at (lines_model self.old) line)) self.old.place }
    {
        let mut rest = self.queues[line];
        let job = rest.take_first();
        self.after_turn(line, rest, self.place);
        job
    }
}
