// The lean sheet's bytes, written into the buffer one part after the other.
ghost use Rattle.std.specs.Prelude.{◌∷◌, ◌++◌, ◌≡◌, ◌+◌, ◌≤◌, length, drop};
ghost use Rattle.program.specs.Bytes.{overwrite};
ghost use Rattle.program.specs.Layout.{types as type_count, terms as term_count};
ghost use Rattle.erasure.specs.Kept.{gather};
ghost use Rattle.erasure.specs.Lean.{kept_type, kept_term, bytes16, type_bytes, term_bytes, lean_sheet};
ghost use Rattle.leanwriting.specs.Internal.{TypesPuttable, TermsPuttable, SheetPuttable};

use crate::records::{term_bytes, type_bytes};
use accessors::term;
use program::limits::{TERM_PLACES, TYPE_PLACES};
use program::records::Counts;
use renumbering::numbers::Numbers;
use renumbering::terms::is_erased;

// Writes bytes at a place of the buffer. By a loop, since `copy_from_slice` of a length that is not known asks the C library for memmove.
fn put(buffer: &mut [u8], at: usize, bytes: &[u8])
    requires { at + length bytes.now ≤ length buffer.old }
    ensures { buffer.new ≡ overwrite buffer.old at bytes.now }
{
    for i in 0..bytes.len() {
        buffer[at + i] = bytes[i];
    }
}

// Writes a field's tag and length.
fn put_head(buffer: &mut [u8], at: usize, tag: u8, size: u16)
    requires { at + 3 ≤ length buffer.old }
    ensures { buffer.new ≡ overwrite buffer.old at (tag ∷ bytes16 size) }
{
    let [high, low] = size.to_be_bytes();
    put(buffer, at, &[tag, high, low]);
}

// Writes the records of the types that are kept. A type is kept if its new number is the count of those written before it.
fn put_types(s: &[u8], c: Counts, types: &[u16; TYPE_PLACES], buffer: &mut [u8], at: usize)
    requires { TypesPuttable s.now c types.now buffer.old at }
    ensures { buffer.new
        ≡ overwrite buffer.old at (gather (kept_type s.now) (type_bytes s.now) (type_count s.now)) }
{
    let mut count = 0;
    for t in 0..c.types {
        if types[t as usize] == count {
            let r = type_bytes(s, c, types, t);
            put(buffer, at + 10 * (count as usize), &r);
            count += 1;
        }
    }
}

// Writes the records of the terms that are kept, all but checks and enables.
fn put_terms(
    s: &[u8],
    c: Counts,
    types: &[u16; TYPE_PLACES],
    terms: &[u16; TERM_PLACES],
    buffer: &mut [u8],
    at: usize,
)
    requires { TermsPuttable s.now c types.now terms.now buffer.old at }
    ensures { buffer.new
        ≡ overwrite buffer.old at (gather (kept_term s.now) (term_bytes s.now) (term_count s.now)) }
{
    let mut count = 0;
    for t in 0..c.terms {
        let x = term(s, c, t);
        if !is_erased(x.kind) {
            let r = term_bytes(s, c, types, terms, t);
            put(buffer, at + 8 * count, &r);
            count += 1;
        }
    }
}

// Writes the whole lean sheet to the front of the buffer, which has room for it: version and principals as they are, then the types and the terms.
pub fn put_sheet(
    s: &[u8],
    c: Counts,
    y: Numbers<TYPE_PLACES>,
    m: Numbers<TERM_PLACES>,
    buffer: &mut [u8],
)
    requires { SheetPuttable s.now c y m buffer.old }
    ensures { buffer.new ≡ lean_sheet s.now ++ drop (length (lean_sheet s.now)) buffer.old }
{
    let types = y.numbers;
    let terms = m.numbers;
    let at = 8 + 4 * (c.principals as usize);
    put(buffer, 0, &s[..at]);
    put_head(buffer, at, 3, 10 * y.count);
    put_types(s, c, &types, buffer, at + 3);
    let behind = at + 3 + 10 * (y.count as usize);
    put_head(buffer, behind, 4, 8 * m.count);
    put_terms(s, c, &types, &terms, buffer, behind + 3);
}
