// What is answered about the terms of a sheet where they stand. specs/Answers.antt has the paper's values of each case.
ghost use Rattle.std.specs.Prelude.{◌≡◌};
ghost use Rattle.subterms.specs.declared.answer.JudgingRefusal.TheVariants.{Faulty, Unreadable};

use program::answer::Refusal;
use typing::answer::Fault;

// A term that is refused where it stands, how many terms stand in it, itself counted, and its fault.
#[derive(Clone, Copy)]
pub struct Faulty {
    pub term: u16,
    pub count: u16,
    pub fault: Fault,
}

// The smallest term of a sheet that is refused where it stands, if one is; or the reader's refusal.
pub type Piece = Result<Option<Faulty>, Refusal>;

// A term's type and least needs where it stands, and the principal that it stands under.
#[derive(Clone, Copy)]
pub struct TermJudgement {
    pub principal: u8,
    pub ty: u16,
    pub needs: u32,
}

// Why a term has no type: its first fault where it stands; no term has the number; or the reader's refusal.
#[derive(Clone, Copy)]
pub enum JudgingRefusal {
    Faulty(Fault),
    NoTerm,
    Unreadable(Refusal),
}

impl From<Fault> for JudgingRefusal {
    ghost from_gives = { λ f e. e ≡ Faulty f };

    fn from(f: Fault) -> JudgingRefusal {
        JudgingRefusal::Faulty(f)
    }
}

impl From<Refusal> for JudgingRefusal {
    ghost from_gives = { λ f e. e ≡ Unreadable f };

    fn from(f: Refusal) -> JudgingRefusal {
        JudgingRefusal::Unreadable(f)
    }
}

// The judgement of a term of a sheet.
pub type Judged = Result<TermJudgement, JudgingRefusal>;
