// The limits of the format and of a run, each named once. specs/Limits.antt has the paper's words.
pub const MAX_PRINCIPALS: u16 = 32;

pub const MAX_TYPES: u16 = 256;

pub const MAX_TERMS: u16 = 1024;

// The highest privilege, and the same as a number of 32 bits, as callers give one.
pub const MAX_PRIVILEGE: u8 = 31;

pub const MAX_PRIVILEGE_NUMBER: u32 = MAX_PRIVILEGE as u32;

pub const MAX_CHANNELS: u8 = 16;

// The guard byte of a channel without a guard.
pub const NO_GUARD: u8 = 255;

// Bytes of the guards: one for each channel.
pub const GUARD_BYTES: u16 = MAX_CHANNELS as u16;

// Arrays with a place for each type, for each term, for each channel, and for each term or binding that a term stands in.
pub const TYPE_PLACES: usize = MAX_TYPES as usize;

pub const TERM_PLACES: usize = MAX_TERMS as usize;

pub const CHANNEL_PLACES: usize = MAX_CHANNELS as usize;

pub const NESTING_PLACES: usize = MAX_NESTING as usize;

// Bytes of the longest sheet: the first field, the heads of the four others, their records, and the guards.
pub const MAX_SHEET: usize = 5
    + 4 * 3
    + 4 * (MAX_PRINCIPALS as usize)
    + 10 * TYPE_PLACES
    + 8 * TERM_PLACES
    + CHANNEL_PLACES;

pub const MAX_TYPE_DEPTH: u8 = 12;

pub const MAX_NESTING: u8 = 32;

// The largest number, at which sums are held.
pub const MAX_NUMBER: u16 = 65535;

// Frames of a start stack, and their numbers.
pub const MAX_START_FRAMES: usize = 16;

pub const MAX_START: usize = 2 * MAX_START_FRAMES;

// Bytes of the cell store, entries of the list of posts, numbers of a lazy run's frame store: two for each of max_frames.
pub const MAX_CELLS: usize = 65536;

pub const MAX_POSTS: usize = 256;

pub const FRAME_NUMBERS: usize = 6496;

pub const MAX_CALLS: u32 = 4096;

pub const MAX_DEPTH: u32 = 100;
