// Refusals 1 to 8 and 31, then 14 to 16, before a run starts.
ghost use Rattle.std.specs.Prelude.{◌&&◌, ◌≡◌, leb};
ghost use Rattle.program.specs.Limits.{max_cells, max_posts, max_calls, max_depth};
ghost use Rattle.interp.specs.Internal.{Admits};
ghost use Rattle.accessors.specs.Internal.{ReadableSheet};

use crate::answer::RunRefusal;
use crate::start::stack_ok;
use program::limits::{MAX_CALLS, MAX_CELLS, MAX_DEPTH, MAX_POSTS};
use program::records::Counts;

fn buffers_ok(cells: usize, posts: usize, frames: bool) -> bool
    ensures { result ≡ (leb cells max_cells && leb posts max_posts && frames) }
{
    (cells <= MAX_CELLS) & (posts <= MAX_POSTS) & frames
}

fn limits_ok(calls: u32, depth: u32) -> bool
    ensures { result ≡ (leb calls max_calls && leb depth max_depth) }
{
    (calls <= MAX_CALLS) & (depth <= MAX_DEPTH)
}

// 14 to 16 on a readable sheet with these counts. The caller says whether the frame store is right.
fn admit_readable(
    s: &[u8],
    c: Counts,
    start: &[u32],
    cells: usize,
    posts: usize,
    frames: bool,
    calls: u32,
    depth: u32,
) -> Result<Counts, RunRefusal>
    requires { ReadableSheet s.now c }
    ensures { Admits s.now start.now cells posts frames calls depth result }
{
    if !stack_ok(start, c.principals) {
        return Err(RunRefusal::Start);
    }
    if !buffers_ok(cells, posts, frames) {
        return Err(RunRefusal::Buffers);
    }
    if !limits_ok(calls, depth) {
        return Err(RunRefusal::Allowance);
    }
    Ok(c)
}

pub fn admit(
    s: &[u8],
    start: &[u32],
    cells: usize,
    posts: usize,
    frames: bool,
    calls: u32,
    depth: u32,
) -> Result<Counts, RunRefusal>
    ensures { Admits s.now start.now cells posts frames calls depth result }
{
    let c = decoder::decode(s)?;
    admit_readable(s, c, start, cells, posts, frames, calls, depth)
}
