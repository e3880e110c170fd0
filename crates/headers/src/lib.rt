// The fields of a sheet, four or in version 2 five: refusals 1 to 4.
#![tactic(auto)]

ghost use Rattle.std.specs.Prelude.{◌≡◌, ◌<◌};
ghost use Rattle.program.specs.Decoding.{holds as holds_of};
ghost use Rattle.headers.specs.Internal.{FieldAt, FieldIs, VersionIs, end_at, end_conditions, AfterTerms, EndIs, HeaderIs};

use accessors::be16;
use program::answer::Refusal;
use program::limits::{
    CHANNEL_PLACES, GUARD_BYTES, MAX_CHANNELS, MAX_PRINCIPALS, MAX_TERMS, MAX_TYPES,
};
use program::records::Counts;

// Whether a length is that of whole records of a size, at least and at most so many.
fn holds(len: u16, size: u16, least: u16, most: u16) -> bool
    requires { 0 < size }
    ensures { result ≡ holds_of size least most len }
{
    let n = len / size;
    (n * size == len) & (least <= n) & (n <= most)
}

// The number of records of the field whose tag stands at `at`.
fn read_field(
    s: &[u8],
    at: usize,
    tag: u8,
    size: u16,
    least: u16,
    most: u16,
) -> Result<u16, Refusal>
    requires { FieldAt at size }
    ensures { FieldIs s.now at tag size least most result }
{
    if s.len() < at + 3 {
        return Err(Refusal::CutShort);
    }
    let found = s[at];
    if found != tag {
        return Err(Refusal::Tag);
    }
    let len = be16(s, at + 1);
    let whole = holds(len, size, least, most);
    if !whole {
        return Err(Refusal::Length);
    }
    if s.len() < at + 3 + (len as usize) {
        return Err(Refusal::CutShort);
    }
    Ok(len / size)
}

// The number of channels that the version in the first field has.
fn read_version(s: &[u8]) -> Result<u8, Refusal>
    ensures { VersionIs s.now result }
{
    read_field(s, 0, 1, 2, 1, 1)?;
    let version = be16(s, 3);
    match version {
        1 => Ok(1),
        2 => Ok(MAX_CHANNELS),
        _ => Err(Refusal::Version),
    }
}

// That nothing follows the byte before `at`.
fn ends(s: &[u8], at: usize) -> Result<(), Refusal>
    ensures { EndIs (end_at s.now at) result }
{
    if at != s.len() {
        return Err(Refusal::Tag);
    }
    Ok(())
}

// What follows the terms, which end before `at`: nothing, or in version 2 the guards and then nothing.
fn read_end(s: &[u8], at: usize, channels: u8) -> Result<(), Refusal>
    requires { AfterTerms s.now at channels }
    ensures { EndIs (end_conditions s.now) result }
{
    if channels == 1 {
        return ends(s, at);
    }
    read_field(s, at, 5, GUARD_BYTES, 1, 1)?;
    ends(s, at + 3 + CHANNEL_PLACES)
}

// The fields in their order, and that nothing follows them.
pub fn read_header(s: &[u8]) -> Result<Counts, Refusal>
    ensures { HeaderIs s.now result }
{
    let channels = read_version(s)?;
    let p = read_field(s, 5, 2, 4, 1, MAX_PRINCIPALS)?;
    let types_at = 8 + 4 * (p as usize);
    let y = read_field(s, types_at, 3, 10, 2, MAX_TYPES)?;
    let terms_at = types_at + 3 + 10 * (y as usize);
    let n = read_field(s, terms_at, 4, 8, 1, MAX_TERMS)?;
    read_end(s, terms_at + 3 + 8 * (n as usize), channels)?;
    Ok(Counts {
        principals: p as u8,
        types: y,
        terms: n,
        channels,
    })
}
