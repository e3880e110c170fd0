// The type table: refusal 5.
#![tactic(auto)]

ghost use Rattle.std.specs.Prelude.{◌≡◌, false, ◌&&◌, ℕ, ◌+◌, ◌*◌, ◌<◌, ◌≤◌, eqb, ltb, length};
ghost use Rattle.program.specs.Layout.{types};
ghost use Rattle.program.specs.Screening.{lowest};
ghost use Rattle.program.specs.Decoding.{fresh, type_ok};
ghost use Rattle.accessors.specs.Internal.{Laid};
ghost use Rattle.program.specs.Search.{found_model};
ghost use Rattle.typerecords.specs.Internal.{le_word, TableAt, TypesBefore, DepthsBefore, DepthIs};

use accessors::type_record;
use program::limits::{MAX_TYPE_DEPTH, TYPE_PLACES};
use program::records::{Counts, TypeRecord};

// How many records `is_fresh` passes at a time: the compiler writes a loop of fixed length out.
const GROUP: usize = 8;

// The eight bytes at a place as one number: words are only compared here, and of this order the compiler makes one load.
fn eight_bytes(s: &[u8], at: usize) -> u64
    requires { at + 8 ≤ length s.now }
    ensures { result ≡ le_word s.now at 8 }
{
    u64::from_le_bytes([
        s[at],
        s[at + 1],
        s[at + 2],
        s[at + 3],
        s[at + 4],
        s[at + 5],
        s[at + 6],
        s[at + 7],
    ])
}

// The two bytes at a place as one number.
fn two_bytes(s: &[u8], at: usize) -> u16
    requires { at + 2 ≤ length s.now }
    ensures { result ≡ le_word s.now at 2 }
{
    u16::from_le_bytes([s[at], s[at + 1]])
}

// Whether the record of type t differs from those of the first n types. The table begins at `at`. Records are compared by a word of eight bytes, the
// argument, result and latent set, which tell function types apart, then by one of two, the kind and the zero.
fn differs(s: &[u8], at: usize, t: u16, n: usize) -> bool
    requires { TypesBefore s.now at t n }
    ensures { result ≡ fresh s.now t n }
{
    let here = at + 10 * (t as usize);
    let eight = eight_bytes(s, here + 2);
    let two = two_bytes(s, here);
    (0..n).all(
        |j|
            requires { at + 10 * j + 10 ≤ length s.now }
        {
            let there = at + 10 * j;
            eight_bytes(s, there + 2) != eight || two_bytes(s, there) != two
        },
    )
}

// Whether a word of eight bytes stands at i or in the same place of one of the records after it, n in all. Callers rely on the answer no alone.
fn met(s: &[u8], i: usize, n: usize, eight: u64) -> bool
    requires { i + 10 * n ≤ length s.now + 2 }
    ensures { result ≡ false → (k : ℕ) → k < n → le_word s.now (i + 10 * k) 8 ≡ eight → ⊥ }
{
    (0..n).any(
        |k|
            requires { i + 10 * k + 8 ≤ length s.now }
        { eight_bytes(s, i + 10 * k) == eight },
    )
}

// Whether no type before t has its record. The largest table has 32,640 = 256 * 255 / 2 pairs of records, so groups in which the eight bytes of t are not
// met are passed, the nearest first; `differs` compares the rest.
fn is_fresh(s: &[u8], at: usize, t: u16) -> bool
    requires { TableAt s.now at t }
    ensures { result ≡ fresh s.now t t }
{
    let here = t as usize;
    let eight = eight_bytes(s, at + 10 * here + 2);
    for group in 0..here / GROUP {
        let j = here - GROUP * group;
        if met(s, at + 10 * (j - GROUP) + 2, GROUP, eight) {
            return differs(s, at, t, j);
        }
    }
    differs(s, at, t, here % GROUP)
}

// Whether a record is that of the boolean, for t = 0, or of the number, for t = 1.
fn base_ok(r: TypeRecord, t: u16) -> bool
    ensures { result ≡ (eqb r.kind t && eqb r.zero 0 && eqb r.arg 0 && eqb r.res 0 && eqb r.latent 0) }
{
    r.kind as u16 == t && r.zero == 0 && r.arg == 0 && r.res == 0 && r.latent == 0
}

// Whether a record is that of a function of types below t.
fn function_ok(r: TypeRecord, t: u16) -> bool
    ensures { result ≡ (eqb r.kind 2 && eqb r.zero 0 && ltb r.arg t && ltb r.res t) }
{
    r.kind == 2 && r.zero == 0 && r.arg < t && r.res < t
}

// How deep type t is nested, none if its record is at fault. `depths` has the depths of the types before it.
fn type_depth(s: &[u8], c: Counts, depths: &[u8; TYPE_PLACES], t: u16) -> Option<u8>
    requires { DepthsBefore s.now c depths.now t }
    ensures { DepthIs s.now t result }
{
    let r = type_record(s, c, t);
    if t < 2 {
        return base_ok(r, t).then_some(0);
    }
    if !function_ok(r, t) {
        return None;
    }
    if !is_fresh(s, 11 + 4 * (c.principals as usize), t) {
        return None;
    }
    let arg = r.arg as usize;
    let res = r.res as usize;
    let d = depths[arg].max(depths[res]);
    if MAX_TYPE_DEPTH <= d {
        return None;
    }
    Some(d + 1)
}

// The lowest type record at fault.
pub fn bad_type(s: &[u8], c: Counts) -> Option<u16>
    requires { Laid s.now c }
    ensures { found_model result ≡ lowest (type_ok s.now) 0 (types s.now) }
{
    let mut depths = [0u8; TYPE_PLACES];
    for t in 0..c.types {
        let Some(d) = type_depth(s, c, &depths, t) else {
            return Some(t);
        };
        depths[t as usize] = d;
    }
    None
}
