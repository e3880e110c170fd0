// The queues by value, and why an add is refused. specs/Answers.antt gives the paper's number of each case.
pub const MAX_LINES: usize = 4;

pub const MAX_JOBS: usize = 8;

// A part of the store of sheets, and the calls allowance of its run.
#[derive(Clone, Copy, Default)]
pub struct Job {
    pub offset: usize,
    pub length: usize,
    pub calls: u32,
}

// The first `count` jobs wait on a line, the oldest first.
#[derive(Clone, Copy)]
pub struct Queue {
    pub jobs: [Job; MAX_JOBS],
    pub count: usize,
}

// The queues of lines 0 to 3, the line whose turn it is, and the place in the list of posts where the last job stopped.
#[derive(Clone, Copy)]
pub struct Lines {
    pub queues: [Queue; MAX_LINES],
    pub turn: usize,
    pub place: usize,
}

// 27 to 29, in this order.
#[derive(Clone, Copy)]
pub enum AddRefusal {
    NoLine,
    Outside,
    Full,
}
