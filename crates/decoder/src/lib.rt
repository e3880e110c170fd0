// The decoder: what any bytes are as a sheet.
#![tactic(auto)]

ghost use Rattle.program.specs.Decoding.{decoding};
ghost use Rattle.accessors.specs.Internal.{Laid};
ghost use Rattle.decoder.specs.Answers.{DecodedAs};
ghost use Rattle.decoder.specs.Internal.{Tables, PlacedTables, NestedTables, table_screening};

pub mod guards;
pub mod nesting;
pub mod places;

use program::answer::Refusal;
use program::limits::TERM_PLACES;
use program::records::Counts;

// The guards of a sheet whose terms are right.
fn decode_guards(s: &[u8], c: Counts) -> Result<Counts, Refusal>
    requires { NestedTables s.now c }
    ensures { DecodedAs s.now (table_screening s.now) result }
{
    if let Some(channel) = guards::bad_guard(s, c) {
        return Err(Refusal::BadGuard(channel));
    }
    Ok(c)
}

// The nesting of a sheet whose records and places are right.
fn decode_nesting(s: &[u8], c: Counts, parents: &[u16; TERM_PLACES]) -> Result<Counts, Refusal>
    requires { PlacedTables s.now c parents.now }
    ensures { DecodedAs s.now (table_screening s.now) result }
{
    let n = c.terms;
    let deep = nesting::nestings(parents, n);
    if let Some(t) = nesting::too_deep(&deep, n) {
        return Err(Refusal::TooDeep(t));
    }
    decode_guards(s, c)
}

// The places of a sheet whose records are right.
fn decode_places(s: &[u8], c: Counts) -> Result<Counts, Refusal>
    requires { Tables s.now c }
    ensures { DecodedAs s.now (table_screening s.now) result }
{
    let parents = places::parents_of(s, c);
    if let Some(t) = places::bad_place(s, c, &parents) {
        return Err(Refusal::BadPlace(t));
    }
    decode_nesting(s, c, &parents)
}

// The two tables of a sheet whose fields are right.
fn decode_tables(s: &[u8], c: Counts) -> Result<Counts, Refusal>
    requires { Laid s.now c }
    ensures { DecodedAs s.now (table_screening s.now) result }
{
    if let Some(t) = typerecords::bad_type(s, c) {
        return Err(Refusal::BadType(t));
    }
    if let Some(t) = termrecords::bad_term(s, c) {
        return Err(Refusal::BadTerm(t));
    }
    decode_places(s, c)
}

// What any bytes are as a sheet: 01's reader, with 02's version 2.
pub fn decode(sheet: &[u8]) -> Result<Counts, Refusal>
    ensures { DecodedAs sheet.now (decoding sheet.now) result }
{
    let c = headers::read_header(sheet)?;
    decode_tables(sheet, c)
}
