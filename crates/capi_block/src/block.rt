// A register block between a caller's list of bytes and the block by value, and the replies to its accesses.
ghost use Rattle.std.specs.Prelude.{◌≡◌, length};
ghost use Rattle.blocks.specs.Block.{block_bytes};
ghost use Rattle.blocks.specs.Answers.{read_answer_model, write_answer_model};
ghost use Rattle.capi_block.specs.Blocks.{accessed as accessed_of, read_reply, write_reply};
ghost use Rattle.replies.specs.Internal.{reply_model};

use blocks::block::{BLOCK_BYTES, Block, NoRegister};
use replies::Reply;

// By a loop, here and in `save`: `copy_from_slice` asks first whether the two overlap, which takes as long as a read.
pub fn load(block: &[u8]) -> Block
    requires { length block.now ≡ block_bytes }
    ensures { result.bytes ≡ block.now }
{
    let mut bytes = [0; BLOCK_BYTES];
    for i in 0..BLOCK_BYTES {
        bytes[i] = block[i];
    }
    Block { bytes }
}

pub fn save(b: Block, block: &mut [u8])
    requires { length block.old ≡ block_bytes }
    ensures { block.new ≡ b.bytes }
{
    for i in 0..BLOCK_BYTES {
        block[i] = b.bytes[i];
    }
}

fn accessed(status: u32, cause: u32, raised: bool, byte: u8) -> Reply
    ensures { reply_model result ≡ accessed_of status cause 0 raised byte }
{
    Reply {
        status: status,
        numbers: [cause, 0, raised as u32, byte as u32, 0, 0, 0, 0],
    }
}

fn no_register(raised: bool) -> Reply
    ensures { reply_model result ≡ accessed_of 2 23 0 raised 0 }
{
    accessed(2, 23, raised, 0)
}

pub fn of_read(read: Result<u8, NoRegister>, raised: bool) -> Reply
    ensures { reply_model result ≡ read_reply (read_answer_model read) raised }
{
    match read {
        Ok(byte) => accessed(0, 0, raised, byte),
        Err(NoRegister) => no_register(raised),
    }
}

pub fn of_write(written: Result<(), NoRegister>, raised: bool) -> Reply
    ensures { reply_model result ≡ write_reply (write_answer_model written) raised }
{
    match written {
        Ok(()) => accessed(0, 0, raised, 0),
        Err(NoRegister) => no_register(raised),
    }
}
