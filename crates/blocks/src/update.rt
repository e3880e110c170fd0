// Stores into a block, and the block after a run.
ghost use Rattle.std.specs.Prelude.{◌≡◌, ◌<◌, set};
ghost use Rattle.program.specs.Bytes.{with_word16};
ghost use Rattle.blocks.specs.Block.{max_address, block_bytes, without as without_of, with_flag as with_flag_of, after_run};
ghost use Rattle.blocks.specs.Internal.{registers_model};

use crate::block::{Block, RunRegisters};

// The bits of a byte that are not among these.
pub fn without(status: u8, bits: u8) -> u8
    ensures { result ≡ without_of status bits }
{
    status & !bits
}

// One of the bits 0 to 2 set, the other two cleared.
fn with_flag(status: u8, flag: u8) -> u8
    ensures { result ≡ with_flag_of status flag }
{
    without(status, 7) | flag
}

// A register by its address.
pub fn stored(b: Block, at: usize, value: u8) -> Block
    requires { at < block_bytes }
    ensures { result.bytes ≡ set b.bytes at value }
{
    let mut r = b;
    r.bytes[at] = value;
    r
}

// A pair of registers, the highest byte first.
fn stored_pair(b: Block, at: usize, n: u16) -> Block
    requires { at < max_address }
    ensures { result.bytes ≡ with_word16 b.bytes at n }
{
    stored(stored(b, at, (n / 256) as u8), at + 1, (n % 256) as u8)
}

// The block after a run.
pub fn after_run(b: Block, t: RunRegisters) -> Block
    ensures { result.bytes ≡ after_run b.bytes (registers_model t) }
{
    let mut r = b;
    r.bytes[0] = 0;
    r.bytes[1] = with_flag(b.bytes[1], t.flag);
    r.bytes[2] = t.cause;
    stored_pair(
        stored_pair(stored_pair(r, 6, t.value), 8, t.calls),
        10,
        t.place,
    )
}
