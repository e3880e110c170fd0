// A sheet's records and guards by their numbers. Each function but `table_term` tests that what it reads lies in the sheet; a record that does not is
// all zeros, and a channel has no guard.
#![tactic(auto)]

ghost use Rattle.std.specs.Prelude.{◌≡◌, ◌+◌, ◌≤◌, length};
ghost use Rattle.program.specs.Bytes.{word16, word32};
ghost use Rattle.program.specs.Records.{term_record, type_record, authority_record, guard_record};
ghost use Rattle.accessors.specs.Internal.{TermInside};

use program::limits::NO_GUARD;
use program::records::{Counts, TermRecord, TypeRecord};

// The two-byte number at `at`, highest byte first.
pub fn be16(s: &[u8], at: usize) -> u16
    requires { at + 2 ≤ length s.now }
    ensures { result ≡ word16 s.now at }
{
    u16::from_be_bytes([s[at], s[at + 1]])
}

// The four-byte number at `at`.
pub fn be32(s: &[u8], at: usize) -> u32
    requires { at + 4 ≤ length s.now }
    ensures { result ≡ word32 s.now at }
{
    u32::from_be_bytes([s[at], s[at + 1], s[at + 2], s[at + 3]])
}

// The record of term t of the table, without a test: the decoder and the type checker know that it is there.
pub fn table_term(s: &[u8], c: Counts, t: u16) -> TermRecord
    requires { TermInside s.now c t }
    ensures { result ≡ term_record s.now c t }
{
    let at = 14 + 4 * (c.principals as usize) + 10 * (c.types as usize) + 8 * (t as usize);
    TermRecord {
        kind: s[at],
        small: s[at + 1],
        first: be16(s, at + 2),
        second: be16(s, at + 4),
        third: be16(s, at + 6),
    }
}

// The record of term t. Past the table there is none, though guards may follow it.
pub fn term(s: &[u8], c: Counts, t: u16) -> TermRecord
    ensures { result ≡ term_record s.now c t }
{
    let at = 14 + 4 * (c.principals as usize) + 10 * (c.types as usize) + 8 * (t as usize);
    if c.terms <= t || s.len() < at + 8 {
        return TermRecord {
            kind: 0,
            small: 0,
            first: 0,
            second: 0,
            third: 0,
        };
    }
    table_term(s, c, t)
}

// The record of type t.
pub fn type_record(s: &[u8], c: Counts, t: u16) -> TypeRecord
    ensures { result ≡ type_record s.now c t }
{
    let at = 11 + 4 * (c.principals as usize) + 10 * (t as usize);
    if s.len() < at + 10 {
        return TypeRecord {
            kind: 0,
            zero: 0,
            arg: 0,
            res: 0,
            latent: 0,
        };
    }
    TypeRecord {
        kind: s[at],
        zero: s[at + 1],
        arg: be16(s, at + 2),
        res: be16(s, at + 4),
        latent: be32(s, at + 6),
    }
}

// The set A(n) that principal n may use.
pub fn authority(s: &[u8], n: u32) -> u32
    ensures { result ≡ authority_record s.now n }
{
    let at = 8 + 4 * (n as usize);
    if s.len() < at + 4 {
        return 0;
    }
    be32(s, at)
}

// The guard byte of a channel.
pub fn guard(s: &[u8], c: Counts, channel: u8) -> u8
    ensures { result ≡ guard_record s.now c channel }
{
    let at = 17
        + 4 * (c.principals as usize)
        + 10 * (c.types as usize)
        + 8 * (c.terms as usize)
        + (channel as usize);
    if s.len() <= at {
        return NO_GUARD;
    }
    s[at]
}
