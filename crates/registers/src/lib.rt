// A write to a controller's register block, which may run the loaded sheet. specs/Writes.antt has the paper's words.
#![tactic(auto)]

ghost use Rattle.std.specs.Prelude.{[], ◌≡◌, eqb, Ok};
ghost use Rattle.interp.specs.Answers.{buffers_of};
ghost use Rattle.registers.specs.Writes.{commanded, write_of};
ghost use Rattle.registers.specs.Answers.{written_model};

mod outcome;

use blocks::block::{Block, NoRegister};
use blocks::kept;
use blocks::update::{after_run, stored, without};
use outcome::of_run;
use program::limits::{MAX_CELLS, MAX_POSTS};

// A write to command: 1 runs the sheet.
fn command(block: &mut Block, value: u8, sheet: &[u8], cells: &mut [u8], posts: &mut [u32])
    ensures { written_model (Ok tt) block.new cells.new posts.new
        ≡ commanded (eqb value 1) block.old.bytes sheet.now (buffers_of cells.old posts.old []) }
{
    if value != 1 {
        return;
    }
    let calls = u32::from(u16::from_be_bytes([block.bytes[4], block.bytes[5]]));
    let right = (cells.len() == MAX_CELLS) & (posts.len() == MAX_POSTS);
    let r = largest::run_largest(sheet, calls, right, cells, posts);
    *block = after_run(*block, of_run(r));
}

// A write to any address. The sheet and the buffers are looked at only if a run is asked for.
pub fn write(
    block: &mut Block,
    address: u32,
    value: u8,
    sheet: &[u8],
    cells: &mut [u8],
    posts: &mut [u32],
) -> Result<(), NoRegister>
    ensures { written_model result block.new cells.new posts.new
        ≡ write_of block.old.bytes address value sheet.now (buffers_of cells.old posts.old []) }
{
    match address {
        0 => command(block, value, sheet, cells, posts),
        1 => *block = stored(*block, 1, without(block.bytes[1], value)),
        2..=15 => *block = kept(*block, address, value),
        _ => return Err(NoRegister),
    }
    Ok(())
}
