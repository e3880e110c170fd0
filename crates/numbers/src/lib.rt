// 01's number and place of each refusal and stop, for whoever tells them as numbers.
#![tactic(auto)]

ghost use Rattle.program.specs.Answers.{decoding_cause, decoding_place};
ghost use Rattle.typing.specs.Answers.{fault_cause, fault_place, rejection_cause, rejection_place};
ghost use Rattle.stores.specs.Stops.{stop_cause, stop_place};
ghost use Rattle.interp.specs.Answers.{refusal_cause, refusal_place};
ghost use Rattle.numbers.specs.Codes.{CodeIs};

use interp::answer::RunRefusal;
use program::answer::Refusal;
use stores::values::Stop;
use typing::answer::{Fault, Rejection};

#[derive(Clone, Copy)]
pub struct Code {
    pub cause: u8,
    pub place: u16,
}

impl Code {
    fn new(cause: u8, place: u16) -> Code
        ensures { CodeIs cause place result }
    {
        Code { cause, place }
    }
}

// 1 to 8, and 31.
impl From<Refusal> for Code {
    ghost from_gives = { λ f r. CodeIs (decoding_cause f) (decoding_place f) r };

    fn from(f: Refusal) -> Code {
        match f {
            Refusal::CutShort => Code::new(1, 0),
            Refusal::Tag => Code::new(2, 0),
            Refusal::Version => Code::new(3, 0),
            Refusal::Length => Code::new(4, 0),
            Refusal::BadType(t) => Code::new(5, t),
            Refusal::BadTerm(t) => Code::new(6, t),
            Refusal::BadPlace(t) => Code::new(7, t),
            Refusal::TooDeep(t) => Code::new(8, t),
            Refusal::BadGuard(t) => Code::new(31, t),
        }
    }
}

// 9 to 13, and 24 to 26.
impl From<Fault> for Code {
    ghost from_gives = { λ f r. CodeIs (fault_cause f) (fault_place f) r };

    fn from(f: Fault) -> Code {
        match f {
            Fault::Variable(t) => Code::new(9, t),
            Fault::Type(t) => Code::new(10, t),
            Fault::SignNeeds(t) => Code::new(11, t),
            Fault::BodyNeeds(t) => Code::new(12, t),
            Fault::RootType(t) => Code::new(13, t),
            Fault::NotFunction(t) => Code::new(24, t),
            Fault::Argument(t) => Code::new(25, t),
            Fault::Branches(t) => Code::new(26, t),
        }
    }
}

// 1 to 13, 24 to 26, and 31.
impl From<Rejection> for Code {
    ghost from_gives = { λ f r. CodeIs (rejection_cause f) (rejection_place f) r };

    fn from(f: Rejection) -> Code {
        match f {
            Rejection::Unreadable(x) => Code::from(x),
            Rejection::Refused(x) => Code::from(x),
        }
    }
}

// 1 to 8, 31, and 14 to 16.
impl From<RunRefusal> for Code {
    ghost from_gives = { λ f r. CodeIs (refusal_cause f) (refusal_place f) r };

    fn from(f: RunRefusal) -> Code {
        match f {
            RunRefusal::Unreadable(x) => Code::from(x),
            RunRefusal::Start => Code::new(14, 0),
            RunRefusal::Buffers => Code::new(15, 0),
            RunRefusal::Allowance => Code::new(16, 0),
        }
    }
}

// 17 to 22, and 36.
impl From<Stop> for Code {
    ghost from_gives = { λ x r. CodeIs (stop_cause x) (stop_place x) r };

    fn from(x: Stop) -> Code {
        match x {
            Stop::Check(t) => Code::new(17, t),
            Stop::Stuck(t) => Code::new(18, t),
            Stop::OpenCalls(t) => Code::new(19, t),
            Stop::Calls(t) => Code::new(20, t),
            Stop::Cells(t) => Code::new(21, t),
            Stop::Posts(t) => Code::new(22, t),
            Stop::Undecided(t) => Code::new(36, t),
        }
    }
}
