// A text as it grows, in fixed memory.
ghost use Rattle.std.specs.Prelude.{[], ◌∷◌, ◌≡◌, ◌+◌, ◌<◌, ◌≤◌, length};
ghost use Rattle.text.specs.Text.{digit as digit_of, decimal as decimal_of, hexadecimal as hexadecimal_of};
ghost use Rattle.drafts.specs.Internal.{contents, Blank, DraftAppended, draft_bytes};

use itoa::Buffer;

// Bytes of a draft: they hold the longest text, of which a number takes at most 20.
pub const DRAFT_BYTES: usize = 224;

// The text is the first `len` bytes. It is no `ArrayVec`, since a draft can be copied.
#[derive(Clone, Copy)]
pub struct Draft {
    pub bytes: [u8; DRAFT_BYTES],
    pub len: usize,
}

impl Draft {
    pub fn new() -> Draft
        ensures { Blank result }
    {
        Draft {
            bytes: [0; DRAFT_BYTES],
            len: 0,
        }
    }

    // One byte more.
    pub fn push(&mut self, b: u8)
        requires { self.old.len < draft_bytes }
        ensures { DraftAppended self.old (b ∷ []) 1 self.new }
    {
        self.bytes[self.len] = b;
        self.len += 1;
    }

    // The text. A `len` of more than 224 counts as 224.
    pub fn as_bytes(&self) -> &[u8]
        ensures { result.now ≡ contents self.now }
    {
        &self.bytes[..self.len.min(DRAFT_BYTES)]
    }
}

// The precondition leaves room for all of `s`.
pub fn word(d: &mut Draft, s: &[u8])
    requires { d.old.len + length s.now ≤ draft_bytes }
    ensures { DraftAppended d.old s.now (length s.now) d.new }
{
    let end = d.len + s.len();
    d.bytes[d.len..end].copy_from_slice(s);
    d.len = end;
}

// A digit's character; letters are capital, of which std's digits have none.
fn digit(n: u8) -> u8
    requires { n < 16 }
    ensures { result ≡ digit_of n }
{
    if n < 10 { b'0' + n } else { b'A' - 10 + n }
}

// The last `k` hexadecimal digits. Not by `write!`: its contract leaves open whether the text fits, and a failed write would be the caller's to tell.
pub fn hexadecimal(d: &mut Draft, k: usize, n: u32)
    requires { d.old.len + k ≤ draft_bytes }
    ensures { DraftAppended d.old (hexadecimal_of k n) k d.new }
{
    if k > 0 {
        let last = digit((n % 16) as u8);
        hexadecimal(d, k - 1, n / 16);
        d.push(last);
    }
}

pub fn decimal(d: &mut Draft, n: usize)
    requires { d.old.len + 20 ≤ draft_bytes }
    ensures { DraftAppended d.old (decimal_of n) (length (decimal_of n)) d.new }
{
    let mut digits = Buffer::new();
    word(d, digits.format(n).as_bytes());
}
