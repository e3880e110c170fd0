// What an explanation answers. specs/Answers.antt gives the paper's number and values of each case.
ghost use Rattle.std.specs.Prelude.{◌≡◌};
ghost use Rattle.typing.specs.declared.answer.Rejection.TheVariants.{Unreadable};
ghost use Rattle.chains.specs.declared.answer.ExplanationRefusal.TheVariants.{Rejected};

use program::answer::Refusal;
use program::limits::NESTING_PLACES;
use typing::answer::Rejection;

// The type checker's refusals; or 30, a privilege above 31.
#[derive(Clone, Copy)]
pub enum ExplanationRefusal {
    Rejected(Rejection),
    NoPrivilege,
}

impl From<Refusal> for ExplanationRefusal {
    ghost from_gives = { λ f e. e ≡ Rejected (Unreadable f) };

    fn from(refusal: Refusal) -> ExplanationRefusal {
        ExplanationRefusal::Rejected(Rejection::Unreadable(refusal))
    }
}

impl From<Rejection> for ExplanationRefusal {
    ghost from_gives = { λ r e. e ≡ Rejected r };

    fn from(rejection: Rejection) -> ExplanationRefusal {
        ExplanationRefusal::Rejected(rejection)
    }
}

// The length of the chain, or none where the privilege is not needed. The terms of the chain, from the root on, are the first of `terms`, and the
// others are zero.
#[derive(Clone, Copy)]
pub struct Explained {
    pub answer: Result<Option<usize>, ExplanationRefusal>,
    pub terms: [u16; NESTING_PLACES],
}
