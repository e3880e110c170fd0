// The register block for C: a list of 16 bytes, and the two entries over it. include/sovzedal.h documents each argument.
#![tactic(auto)]

ghost use Rattle.std.specs.Prelude.{[], ◌≡◌};
ghost use Rattle.interp.specs.Answers.{buffers_of};
ghost use Rattle.replies.specs.Replies.{returned_reply};
ghost use Rattle.capi_block.specs.Blocks.{block_read, returned_block, block_write};

mod block;

use block::{load, of_read, of_write, save};
use blocks::block::BLOCK_BYTES;
use replies::{ANSWER_NUMBERS, put};

// A register's byte.
pub fn read(block: &[u8], address: u32, answer: &mut [u32]) -> u32
    ensures { returned_reply result answer.new ≡ block_read block.now address answer.old }
{
    if block.len() != BLOCK_BYTES {
        return 3;
    }
    if answer.len() < ANSWER_NUMBERS {
        return 3;
    }
    let b = load(block);
    let byte = blocks::read(b, address);
    put(of_read(byte, blocks::interrupt(b)), answer)
}

// A write to a register; 1 to the command runs the sheet, in the largest buffers.
pub fn write(
    block: &mut [u8],
    address: u32,
    value: u8,
    sheet: &[u8],
    cells: &mut [u8],
    posts: &mut [u32],
    answer: &mut [u32],
) -> u32
    ensures { returned_block result answer.new block.new (buffers_of cells.new posts.new [])
        ≡ block_write block.old address value sheet.now (buffers_of cells.old posts.old [])
        answer.old }
{
    if block.len() != BLOCK_BYTES {
        return 3;
    }
    if answer.len() < ANSWER_NUMBERS {
        return 3;
    }
    let mut b = load(block);
    let written = registers::write(&mut b, address, value, sheet, cells, posts);
    save(b, block);
    put(of_write(written, blocks::interrupt(b)), answer)
}
