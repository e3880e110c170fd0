// Why erasure writes no lean sheet. specs/Answers.antt has the papers' number and values of each case.
ghost use Rattle.std.specs.Prelude.{◌≡◌};
ghost use Rattle.typing.specs.declared.answer.Rejection.TheVariants.{Unreadable};
ghost use Rattle.erasure.specs.declared.answer.ErasureRefusal.TheVariants.{Rejected};

use program::answer::Refusal;
use typing::answer::Rejection;

// The type checker's refusal; a sheet with a test or of version 2; or a buffer shorter than the lean sheet.
#[derive(Clone, Copy)]
pub enum ErasureRefusal {
    Rejected(Rejection),
    NotErasable,
    NoRoom,
}

impl From<Refusal> for ErasureRefusal {
    ghost from_gives = { λ f e. e ≡ Rejected (Unreadable f) };

    fn from(refusal: Refusal) -> ErasureRefusal {
        ErasureRefusal::Rejected(Rejection::Unreadable(refusal))
    }
}

impl From<Rejection> for ErasureRefusal {
    ghost from_gives = { λ r e. e ≡ Rejected r };

    fn from(rejection: Rejection) -> ErasureRefusal {
        ErasureRefusal::Rejected(rejection)
    }
}
