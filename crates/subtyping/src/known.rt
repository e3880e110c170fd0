// The pairs of types that were found to be subtypes while a sheet is judged, so that none is compared again. Without this, types 12 deep can take 4,095
// comparisons each time they meet, since each level has two pairs of parts.
ghost use Rattle.std.specs.Prelude.{◌≡◌};
ghost use Rattle.subtyping.specs.Known.{TypePair, word_index, knows as knows_of, with_pair as noted_of};

use program::limits::TYPE_PLACES;

// A row of eight words for each type.
pub const KNOWN_WORDS: usize = TYPE_PLACES * 8;

// A bit for each pair: that of b in the row of a says that a is a subtype of b.
pub type Known = [u32; KNOWN_WORDS];

// The word that has the bit of a pair.
fn word_of(a: u16, b: u16) -> usize
    requires { TypePair a b }
    ensures { result ≡ word_index a b }
{
    (a as usize) * 8 + ((b / 32) as usize)
}

// Whether a is known to be a subtype of b.
pub fn knows(known: &Known, a: u16, b: u16) -> bool
    requires { TypePair a b }
    ensures { result ≡ knows_of known.now a b }
{
    privileges::contains((b % 32) as u8, known[word_of(a, b)])
}

// Notes that a is a subtype of b.
pub fn note(known: &mut Known, a: u16, b: u16)
    requires { TypePair a b }
    ensures { known.new ≡ noted_of known.old a b }
{
    let at = word_of(a, b);
    known[at] = privileges::insert((b % 32) as u8, known[at]);
}
