// The lean sheet for the unit: an accepted sheet of version 1 without its checks, enables and latent sets, written into a lent buffer.
#![tactic(auto)]

ghost use Rattle.std.specs.Prelude.{◌≡◌, leb, length};
ghost use Rattle.accessors.specs.Internal.{FormedSheet, ReadableSheet};
ghost use Rattle.erasure.specs.Lean.{erasable as erasable_of, lean_sheet};
ghost use Rattle.erasure.specs.Erasure.{if_erasable, erasure};
ghost use Rattle.lean.specs.Answers.{after_erasure};

use accessors::be16;
use erasure::answer::ErasureRefusal;
use leanwriting::write::put_sheet;
use program::records::Counts;
use renumbering::terms::{number_terms, untested};
use renumbering::types::number_types;

// The lean sheet of any bytes, written to the front of the buffer, and its length: the type checker's refusals, then 32, then 33. Each of them
// leaves the buffer as it was.
pub fn erase(sheet: &[u8], buffer: &mut [u8]) -> Result<u16, ErasureRefusal>
    ensures { after_erasure result buffer.new ≡ erasure sheet.now buffer.old }
{
    let c = decoder::decode(sheet)?;
    erase_readable(sheet, c, buffer)
}

// The same of a readable sheet with its counts.
#[tactic(auto, unfolding(erasure::specs::Erasure::erasure))]
fn erase_readable(s: &[u8], c: Counts, buffer: &mut [u8]) -> Result<u16, ErasureRefusal>
    requires { ReadableSheet s.now c }
    ensures { after_erasure result buffer.new ≡ erasure s.now buffer.old }
{
    checker::typecheck_readable(s, c)?;
    erase_accepted(s, c, buffer)
}

// Of an accepted sheet. The length comes first and the bytes after it, so that nothing is written where there is no room for all.
fn erase_accepted(s: &[u8], c: Counts, buffer: &mut [u8]) -> Result<u16, ErasureRefusal>
    requires { FormedSheet s.now c }
    ensures { after_erasure result buffer.new
        ≡ if_erasable (erasable_of s.now) (leb (length (lean_sheet s.now)) (length buffer.old)) (lean_sheet s.now)
        buffer.old }
{
    if !erasable(s, c) {
        return Err(ErasureRefusal::NotErasable);
    }
    let y = number_types(s, c);
    let m = number_terms(s, c);
    let size = 14 + 4 * (c.principals as u16) + 10 * y.count + 8 * m.count;
    if buffer.len() < (size as usize) {
        return Err(ErasureRefusal::NoRoom);
    }
    put_sheet(s, c, y, m, buffer);
    Ok(size)
}

// Whether the sheet is of version 1 and has no test, reachable or not.
fn erasable(s: &[u8], c: Counts) -> bool
    requires { FormedSheet s.now c }
    ensures { result ≡ erasable_of s.now }
{
    (be16(s, 3) == 1) & untested(s, c)
}
