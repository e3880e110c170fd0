// Whether a sheet names a privilege in a check, a test or the guard of a post, and where first.
#![tactic(auto)]

ghost use Rattle.std.specs.Prelude.{[], ◌∷◌, ◌≡◌, leb, Ok};
ghost use Rattle.program.specs.Limits.{max_privilege};
ghost use Rattle.program.specs.Screening.{screen, unless_found, unless};
ghost use Rattle.accessors.specs.Internal.{FormedSheet};
ghost use Rattle.semantics.specs.Names.{names as names_of};
ghost use Rattle.irrelevance.specs.Naming.{refused, lowest_naming, naming_of, naming};
ghost use Rattle.irrelevance.specs.Answers.{named_model};
ghost use Rattle.naming.specs.Internal.{NamingSheet, NamingTerm};

use accessors::{guard, term};
use irrelevance::answer::NamingRefusal;
use program::limits::MAX_PRIVILEGE_NUMBER;
use program::records::Counts;

// Whether the sheet names a privilege, on any bytes and any number: the decoder's refusals, then 30, then the lowest term that names it, or none.
pub fn names(sheet: &[u8], privilege: u32) -> Result<Option<u16>, NamingRefusal>
    ensures { named_model result ≡ naming sheet.now privilege }
{
    let c = decoder::decode(sheet)?;
    names_readable(sheet, c, privilege)
}

// The same of a readable sheet with its counts.
fn names_readable(s: &[u8], c: Counts, privilege: u32) -> Result<Option<u16>, NamingRefusal>
    requires { FormedSheet s.now c }
    ensures { named_model result ≡ unless_found refused (screen (unless 30 (leb privilege max_privilege) ∷ []))
        (λ _. naming_of (lowest_naming s.now privilege)) }
{
    if MAX_PRIVILEGE_NUMBER < privilege {
        return Err(NamingRefusal::NoPrivilege);
    }
    Ok(lowest_naming(s, c, privilege as u8))
}

// The lowest term that names p.
fn lowest_naming(s: &[u8], c: Counts, p: u8) -> Option<u16>
    requires { NamingSheet s.now c p }
    ensures { named_model (Ok result) ≡ naming_of (lowest_naming s.now p) }
{
    for t in 0..c.terms {
        if term_names(s, c, t, p) {
            return Some(t);
        }
    }
    None
}

// Whether term t names p. An enable does not: it asks nothing.
fn term_names(s: &[u8], c: Counts, t: u16, p: u8) -> bool
    requires { NamingTerm s.now c p t }
    ensures { result ≡ names_of s.now p t }
{
    let x = term(s, c, t);
    let kind = x.kind;
    match kind {
        7 => x.small == p,
        10 => x.small == p,
        14 => guard(s, c, x.small) == p,
        _ => false,
    }
}
