// The smaller of two refused terms: that with fewer terms in it, or of as many the one with the lower number.
ghost use Rattle.std.specs.Prelude.{◌≡◌};
ghost use Rattle.rules.specs.Inference.{inferred_model};
ghost use Rattle.subterms.specs.Smallest.{smaller as smaller_of, faulty_as};
ghost use Rattle.smallest.specs.Internal.{candidate_model, or_own};

use subterms::answer::Faulty;
use typing::answer::{Fault, Typed};

pub fn smaller(a: Option<Faulty>, b: Option<Faulty>) -> Option<Faulty>
    ensures { candidate_model result ≡ smaller_of (candidate_model a) (candidate_model b) }
{
    let Some(x) = a else {
        return b;
    };
    let Some(y) = b else {
        return a;
    };
    if y.count < x.count || (y.count == x.count && y.term < x.term) {
        return b;
    }
    a
}

// Term t with so many terms in it, if its judgement there is a fault.
pub fn faulty_as(t: u16, count: u16, j: Result<Typed, Fault>) -> Option<Faulty>
    ensures { candidate_model result ≡ faulty_as t count (inferred_model j) }
{
    match j {
        Ok(_) => None,
        Err(f) => Some(Faulty {
            term: t,
            count,
            fault: f,
        }),
    }
}

// Of what is refused below a term and the term itself: a child has fewer terms in it.
pub fn or_own(below: Option<Faulty>, t: u16, count: u16, j: Result<Typed, Fault>) -> Option<Faulty>
    ensures { candidate_model result ≡ or_own (candidate_model below) (faulty_as t count (inferred_model j)) }
{
    below.or(faulty_as(t, count, j))
}
