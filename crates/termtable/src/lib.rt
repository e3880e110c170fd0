// The term table of a readable sheet as an array of words, decoded once a run: kind, small, first, second and third of a record from the lowest byte
// on; the last three begin at bits 16, 32 and 48. In the place of second and third, which they do not use, a sign has the set that its principal may use,
// and a post the guard of its channel.
#![tactic(auto)]

ghost use Rattle.std.specs.Prelude.{◌≡◌, length, get_or};
ghost use Rattle.program.specs.Limits.{max_terms};
ghost use Rattle.termtable.specs.Table.{word_kind, word_small, word_first, word_second, word_third, word_authority, word_guard, WordOf, Decodable, TermWords};

use program::limits::{MAX_TERMS, TERM_PLACES};
use program::records::Counts;

pub fn kind_of(x: u64) -> u8
    ensures { result ≡ word_kind x }
{
    (x % 256) as u8
}

pub fn small_of(x: u64) -> u8
    ensures { result ≡ word_small x }
{
    (x / 256 % 256) as u8
}

pub fn first_of(x: u64) -> u16
    ensures { result ≡ word_first x }
{
    (x / 65536 % 65536) as u16
}

pub fn second_of(x: u64) -> u16
    ensures { result ≡ word_second x }
{
    (x / 4294967296 % 65536) as u16
}

pub fn third_of(x: u64) -> u16
    ensures { result ≡ word_third x }
{
    (x / 281474976710656 % 65536) as u16
}

pub fn authority_of(x: u64) -> u32
    ensures { result ≡ word_authority x }
{
    (x / 4294967296 % 4294967296) as u32
}

pub fn guard_of(x: u64) -> u8
    ensures { result ≡ word_guard x }
{
    (x / 4294967296 % 256) as u8
}

// The word of term t.
fn term_word(s: &[u8], c: Counts, t: u16) -> u64
    ensures { WordOf s.now c t result }
{
    let x = accessors::term(s, c, t);
    let low = (x.kind as u64) + 256 * (x.small as u64) + 65536 * (x.first as u64);
    if x.kind == 9 {
        return low + 4294967296 * (accessors::authority(s, x.small as u32) as u64);
    }
    if x.kind == 14 {
        return low + 4294967296 * (accessors::guard(s, c, x.small) as u64);
    }
    low + 4294967296 * (x.second as u64) + 281474976710656 * (x.third as u64)
}

// Fills the table. Past the sheet's terms it stays zero.
pub fn decode_terms(s: &[u8], c: Counts, terms: &mut [u64; TERM_PLACES])
    requires { Decodable s.now c terms.old }
    ensures { TermWords s.now c terms.new }
{
    for t in 0..c.terms {
        terms[t as usize] = term_word(s, c, t);
    }
}

// The word of term t; past the table, 0, which is a boolean's.
pub fn word_at(terms: &[u64; TERM_PLACES], t: u16) -> u64
    requires { length terms.now ≡ max_terms }
    ensures { result ≡ get_or terms.now t 0 }
{
    if t < MAX_TERMS { terms[t as usize] } else { 0 }
}
