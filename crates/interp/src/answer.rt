// The answer of a run. specs/Answers.antt gives the paper's number and values of each case.
ghost use Rattle.std.specs.Prelude.{◌≡◌};
ghost use Rattle.interp.specs.declared.answer.RunRefusal.TheVariants.{Unreadable};

use program::answer::Refusal;
use stores::values::Stop;

// 1 to 8 and 31 are the reader's; 14 to 16 follow in this order.
#[derive(Clone, Copy)]
pub enum RunRefusal {
    Unreadable(Refusal),
    Start,
    Buffers,
    Allowance,
}

impl From<Refusal> for RunRefusal {
    ghost from_gives = { λ f r. r ≡ Unreadable f };

    fn from(f: Refusal) -> RunRefusal {
        RunRefusal::Unreadable(f)
    }
}

#[derive(Clone, Copy)]
pub enum Ground {
    Bool(bool),
    Num(u16),
}

// Calls, cells and posts made, and the sums and differences that were saturated.
#[derive(Clone, Copy)]
pub struct RunCounts {
    pub calls: usize,
    pub cells: usize,
    pub posts: usize,
    pub saturated: usize,
}

// A run that was not refused: its end or its stop, and what it made.
#[derive(Clone, Copy)]
pub struct Ran {
    pub outcome: Result<Ground, Stop>,
    pub made: RunCounts,
}

pub type Run = Result<Ran, RunRefusal>;

// A run with a record: what it tells without one, and the number of entries.
#[derive(Clone, Copy)]
pub struct RecordedRun {
    pub ran: Ran,
    pub entries: usize,
}

// What evaluating a root gives, as a word, with what was made and the number of entries in the record.
#[derive(Clone, Copy)]
pub struct Tally {
    pub word: u64,
    pub made: RunCounts,
    pub entries: usize,
}
