// What the lent buffers hold before a run, and a sum of what they hold after it.
ghost use Rattle.std.specs.Prelude.{◌≡◌, ◌+◌, ◌*◌, length};
ghost use Rattle.program.specs.Limits.{max_terms, max_sheet, max_start, max_cells, max_posts, frame_numbers};

use program::limits::{FRAME_NUMBERS, MAX_CELLS, MAX_POSTS, MAX_SHEET, MAX_START, TERM_PLACES};

// Room for the largest of each, and more: what is too long must be refused. The contracts say that the code's limits are those of the definitions.
pub const START_ROOM: usize = MAX_START + 8;

pub const SHEET_ROOM: usize = MAX_SHEET + 1;

pub const CELL_ROOM: usize = MAX_CELLS + 1;

pub const POST_ROOM: usize = MAX_POSTS + 1;

pub const FRAME_ROOM: usize = FRAME_NUMBERS + 1;

pub const PAIR_ROOM: usize = 2 * TERM_PLACES + 2;

// One function for each buffer, since each length is tied to its own definition by a clause.
pub fn start_buffer() -> [u32; START_ROOM]
    ensures { max_start + 8 ≡ length result }
{
    [0; START_ROOM]
}

pub fn sheet_buffer() -> [u8; SHEET_ROOM]
    ensures { max_sheet + 1 ≡ length result }
{
    [0; SHEET_ROOM]
}

pub fn cell_buffer() -> [u8; CELL_ROOM]
    ensures { max_cells + 1 ≡ length result }
{
    [0; CELL_ROOM]
}

pub fn post_buffer() -> [u32; POST_ROOM]
    ensures { max_posts + 1 ≡ length result }
{
    [0; POST_ROOM]
}

pub fn frame_buffer() -> [u32; FRAME_ROOM]
    ensures { frame_numbers + 1 ≡ length result }
{
    [0; FRAME_ROOM]
}

pub fn pair_buffer() -> [u16; PAIR_ROOM]
    ensures { 2 * max_terms + 2 ≡ length result }
{
    [0; PAIR_ROOM]
}

// The bytes 1, 8, 15 and so on. One function for these and for numbers would need a trait for the wrapping sum, which is no plainer.
pub fn fill_cells(a: &mut [u8]) {
    let mut next: u8 = 1;
    a.fill_with(|| {
        let v = next;
        next = v.wrapping_add(7);
        v
    });
}

// Numbers from the first one on, each by a step more.
pub fn fill_numbers(a: &mut [u32], first: u32, step: u32) {
    let mut next = first;
    a.fill_with(|| {
        let v = next;
        next = v.wrapping_add(step);
        v
    });
}

// All that a lazy run is lent.
pub fn fill_all(cells: &mut [u8], posts: &mut [u32], frames: &mut [u32]) {
    fill_cells(cells);
    fill_numbers(posts, 2, 3);
    fill_numbers(frames, 5, 1);
}

// The sum h taken on over a list: for each entry 31 times the sum, and the entry.
pub fn mix<T: Copy + Into<u32>>(h: u32, a: &[T]) -> u32 {
    a.iter()
        .fold(h, |sum, &x| sum.wrapping_mul(31).wrapping_add(x.into()))
}

pub fn mix_all(cells: &[u8], posts: &[u32], frames: &[u32]) -> u32 {
    mix(mix(mix(0, cells), posts), frames)
}
