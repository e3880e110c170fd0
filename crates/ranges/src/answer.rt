// The answer of a run over ranges. specs/Answers.antt gives the papers' number and values of each case.
ghost use Rattle.std.specs.Prelude.{◌≡◌};
ghost use Rattle.ranges.specs.declared.answer.IntervalRefusal.TheVariants.{Run};

use interp::answer::{RunCounts, RunRefusal};
use stores::values::Stop;

// No `Option<bool>`, which is no plainer: these are the paper's three words.
#[derive(Clone, Copy)]
pub enum Truth {
    Yes,
    No,
    Undecided,
}

#[derive(Clone, Copy)]
pub enum IntervalGround {
    Truth(Truth),
    Interval { lowest: u16, highest: u16 },
}

// The refusals of a plain run, then 35.
#[derive(Clone, Copy)]
pub enum IntervalRefusal {
    Run(RunRefusal),
    Pairs,
}

impl From<RunRefusal> for IntervalRefusal {
    ghost from_gives = { λ f r. r ≡ Run f };

    fn from(f: RunRefusal) -> IntervalRefusal {
        IntervalRefusal::Run(f)
    }
}

// A run that was not refused: its end or its stop, and what it made.
#[derive(Clone, Copy)]
pub struct IntervalRan {
    pub outcome: Result<IntervalGround, Stop>,
    pub made: RunCounts,
}

pub type IntervalRun = Result<IntervalRan, IntervalRefusal>;
