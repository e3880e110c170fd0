// What a serve tells. specs/Answers.antt gives the paper's number and values of each case.
use interp::answer::Run;

// 28: the part of the job that is served does not lie in the store.
#[derive(Clone, Copy)]
pub struct Outside;

// The line that was served, and its job's run, if there was one.
#[derive(Clone, Copy)]
pub struct Served {
    pub line: u32,
    pub answer: Result<Run, Outside>,
}
