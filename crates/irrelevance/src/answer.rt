// Why it is not told whether a sheet names a privilege. specs/Answers.antt has the papers' number and values of each case.
ghost use Rattle.std.specs.Prelude.{◌≡◌};
ghost use Rattle.irrelevance.specs.declared.answer.NamingRefusal.TheVariants.{Unreadable};

use program::answer::Refusal;

// The decoder's refusal; or 30, a privilege above 31. Where neither comes, the lowest term that names the privilege is told, or that none does.
#[derive(Clone, Copy)]
pub enum NamingRefusal {
    Unreadable(Refusal),
    NoPrivilege,
}

impl From<Refusal> for NamingRefusal {
    ghost from_gives = { λ f e. e ≡ Unreadable f };

    fn from(refusal: Refusal) -> NamingRefusal {
        NamingRefusal::Unreadable(refusal)
    }
}
