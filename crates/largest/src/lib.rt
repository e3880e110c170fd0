// A run for which buffers are asked for as the largest.
#![tactic(auto)]

ghost use Rattle.std.specs.Prelude.{[], ◌≡◌};
ghost use Rattle.interp.specs.Answers.{buffers_of, after, empty_stack_request};
ghost use Rattle.largest.specs.Largest.{largest_run};

use interp::answer::{Run, RunRefusal};
use program::limits::MAX_DEPTH;

// Runs the sheet eagerly, checks in force, on an empty stack, with 100 open calls. The caller says whether the buffers have the lengths asked for.
pub fn run_largest(
    sheet: &[u8],
    calls: u32,
    right: bool,
    cells: &mut [u8],
    posts: &mut [u32],
) -> Run
    ensures { after result cells.new posts.new []
        ≡ largest_run right sheet.now (empty_stack_request calls) (buffers_of cells.old posts.old []) }
{
    if right {
        return interp::run_eager(sheet, &[], calls, MAX_DEPTH, true, cells, posts);
    }
    decoder::decode(sheet)?;
    Err(RunRefusal::Buffers)
}
