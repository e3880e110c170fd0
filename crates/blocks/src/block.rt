// The block by value, what a run puts into it, and why an access is refused. specs/Answers.antt gives the paper's number and values of each case.
pub const BLOCK_BYTES: usize = 16;

pub const MAX_ADDRESS: u32 = 15;

#[derive(Clone, Copy)]
pub struct Block {
    pub bytes: [u8; BLOCK_BYTES],
}

// The status bit by its worth, and the registers 2 and 6 to 11.
#[derive(Clone, Copy)]
pub struct RunRegisters {
    pub flag: u8,
    pub cause: u8,
    pub value: u16,
    pub calls: u16,
    pub place: u16,
}

// 23: an access to an address above 15.
#[derive(Clone, Copy)]
pub struct NoRegister;
