// One line's queue. It is no ArrayVec of the kit, which cannot be copied: the state of the lines can be.
ghost use Rattle.std.specs.Prelude.{true, [], ◌∷◌, ◌++◌, ◌≡◌, ◌<◌, length, get_or};
ghost use Rattle.queues.specs.Queues.{max_jobs};
ghost use Rattle.queues.specs.Answers.{job_model, no_job, queue_model};
ghost use Rattle.queues.specs.Internal.{has_job, SizeIs};

use crate::state::{Job, MAX_JOBS, Queue};

impl Queue {
    pub fn new() -> Queue
        ensures { queue_model result ≡ [] }
    {
        Queue {
            jobs: [Job::default(); MAX_JOBS],
            count: 0,
        }
    }

    // How many jobs wait.
    pub fn len(&self) -> usize
        ensures { SizeIs self.now result }
    {
        self.count.min(MAX_JOBS)
    }

    // The job in a place; all zero past the last one.
    pub fn job_at(&self, k: usize) -> Job
        ensures { job_model result ≡ get_or (queue_model self.now) k no_job }
    {
        if k < self.len() {
            self.jobs[k]
        } else {
            Job::default()
        }
    }

    // One job more.
    pub fn push(&mut self, job: Job)
        requires { length (queue_model self.old) < max_jobs }
        ensures { queue_model self.new ≡ queue_model self.old ++ (job_model job ∷ []) }
    {
        self.jobs[self.count] = job;
        self.count += 1;
    }

    // The oldest job leaves, and each of the others moves up a place.
    pub fn take_first(&mut self) -> Job
        requires { has_job (queue_model self.old) ≡ true }
        ensures { queue_model self.old ≡ job_model result ∷ queue_model self.new }
    {
        let waiting = self.jobs;
        let last = self.len() - 1;
        for i in 0..last {
            self.jobs[i] = waiting[i + 1];
        }
        self.count = last;
        waiting[0]
    }
}
