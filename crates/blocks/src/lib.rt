// A controller's register block by itself: 16 bytes by value, and what needs no run. specs/Block.antt has the paper's words.
#![tactic(auto)]

ghost use Rattle.std.specs.Prelude.{◌≡◌};
ghost use Rattle.blocks.specs.Block.{new_block, raised, read_of, is_kept};
ghost use Rattle.blocks.specs.Answers.{read_answer_model};
ghost use Rattle.blocks.specs.Internal.{kept_of};

pub mod block;
pub mod update;

use block::{BLOCK_BYTES, Block, MAX_ADDRESS, NoRegister};
use update::stored;

pub fn new_block() -> Block
    ensures { result.bytes ≡ new_block }
{
    Block {
        bytes: [0; BLOCK_BYTES],
    }
}

pub fn read(b: Block, address: u32) -> Result<u8, NoRegister>
    ensures { read_answer_model result ≡ read_of b.bytes address }
{
    if MAX_ADDRESS < address {
        return Err(NoRegister);
    }
    let at = address as usize;
    Ok(b.bytes[at])
}

// Whether status and mask share a bit.
pub fn interrupt(b: Block) -> bool
    ensures { result ≡ raised b.bytes }
{
    b.bytes[1] & b.bytes[3] != 0
}

// A write to 2 to 15: of these 3 to 5 keep what is written.
pub fn kept(b: Block, address: u32, value: u8) -> Block
    ensures { result.bytes ≡ kept_of (is_kept address) b.bytes address value }
{
    if (3 <= address) & (address <= 5) {
        stored(b, address as usize, value)
    } else {
        b
    }
}
