// The smallest faulty piece of a sheet: the smallest term that is refused where it stands, and the record of that term.
#![tactic(auto)]

ghost use Rattle.std.specs.Prelude.{◌≡◌};
ghost use Rattle.accessors.specs.Internal.{FormedSheet};
ghost use Rattle.subterms.specs.Smallest.{piece_of, record_of};
ghost use Rattle.subterms.specs.Answers.{piece_model};
ghost use Rattle.piece.specs.Answers.{LocatedAs};
ghost use Rattle.piece.specs.Internal.{piece_in};

use places::root;
use program::records::Counts;
use smallest::visit::visit;
use subterms::answer::Piece;
use subtyping::known::{KNOWN_WORDS, Known};

// A piece, and where its record begins in the sheet and how many bytes it has; 0 and 0 if there is none, as the numbers of the entry for C have it
// (LocatedAs).
#[derive(Clone, Copy)]
pub struct Located {
    pub piece: Piece,
    pub at: usize,
    pub len: usize,
}

// The smallest faulty piece, on any bytes: its term, how many terms there are in it, and its fault; no piece; or the reader's refusal.
pub fn piece(sheet: &[u8]) -> Piece
    ensures { piece_model result ≡ piece_of sheet.now }
{
    locate(sheet).piece
}

// The eight bytes of the sheet that are the record of its smallest faulty piece; none if there is no piece.
pub fn record_of(sheet: &[u8]) -> &[u8]
    ensures { result.now ≡ record_of sheet.now (piece_of sheet.now) }
{
    let x = locate(sheet);
    let at = x.at;
    let end = at + x.len;
    &sheet[at..end]
}

// The piece and the place of its record.
pub fn locate(sheet: &[u8]) -> Located
    ensures { LocatedAs sheet.now (piece_of sheet.now) result }
{
    match decoder::decode(sheet) {
        Ok(c) => locate_readable(sheet, c),
        Err(f) => nowhere(Err(f)),
    }
}

fn nowhere(piece: Piece) -> Located
    ensures { result ≡ record { piece = piece; at = 0; len = 0 } }
{
    Located {
        piece,
        at: 0,
        len: 0,
    }
}

// The same of a readable sheet with its counts.
fn locate_readable(s: &[u8], c: Counts) -> Located
    requires { FormedSheet s.now c }
    ensures { LocatedAs s.now (piece_in s.now) result }
{
    let mut known: Known = [0; KNOWN_WORDS];
    let found = visit(s, c, &mut known, Some(root(c)));
    let Some(x) = found.smallest else {
        return nowhere(Ok(None));
    };
    Located {
        piece: Ok(Some(x)),
        at: 14 + 4 * (c.principals as usize) + 10 * (c.types as usize) + 8 * (x.term as usize),
        len: 8,
    }
}
