// What the type checker answers. specs/Answers.antt has 01's number and values of each case.
use program::answer::Refusal;

// The fault of a term, with the term's number.
#[derive(Clone, Copy)]
pub enum Fault {
    Variable(u16),
    Type(u16),
    SignNeeds(u16),
    BodyNeeds(u16),
    RootType(u16),
    NotFunction(u16),
    Argument(u16),
    Branches(u16),
}

// The type and needs of a term in which no fault was found. A judgement is a `Result<Typed, Fault>`, with the first fault in the term.
#[derive(Clone, Copy)]
pub struct Typed {
    pub ty: u16,
    pub needs: u32,
}

// An accepted sheet: its number of terms, and its root's type and needs.
#[derive(Clone, Copy)]
pub struct Accepted {
    pub terms: u16,
    pub ty: u16,
    pub needs: u32,
}

// Why a sheet is not accepted: the reader refuses it, or the rules do. The verdict on a sheet is a `Result<Accepted, Rejection>`.
#[derive(Clone, Copy)]
pub enum Rejection {
    Unreadable(Refusal),
    Refused(Fault),
}

impl From<Refusal> for Rejection {
    ghost use Rattle.std.specs.Prelude.{◌≡◌};
    ghost use Rattle.typing.specs.declared.answer.Rejection.TheVariants.{Unreadable};

    ghost from_gives = { λ refusal r. r ≡ Unreadable refusal };

    fn from(refusal: Refusal) -> Rejection {
        Rejection::Unreadable(refusal)
    }
}

impl From<Fault> for Rejection {
    ghost use Rattle.std.specs.Prelude.{◌≡◌};
    ghost use Rattle.typing.specs.declared.answer.Rejection.TheVariants.{Refused};

    ghost from_gives = { λ fault r. r ≡ Refused fault };

    fn from(fault: Fault) -> Rejection {
        Rejection::Refused(fault)
    }
}
