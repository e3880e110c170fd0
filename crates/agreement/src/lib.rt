// Theorems about the code, each over two actual runs of a sheet: demand 3, of which one run has checks in force and one passes over them; and that a
// privilege which the sheet does not name plays no part.
#![tactic(auto)]

ghost use Rattle.std.specs.Prelude.{true, false, ◌≡◌, length};
ghost use Rattle.typing.specs.Verdicts.{verdict};
ghost use Rattle.typing.specs.Answers.{verdict_model};
ghost use Rattle.semantics.specs.Runs.{run};
ghost use Rattle.interp.specs.Answers.{request_of, buffers_of, after};
ghost use Rattle.irrelevance.specs.Naming.{naming};
ghost use Rattle.irrelevance.specs.Answers.{named_model};
ghost use Rattle.agreement.specs.Agreement.{Agreement, Irrelevance};
ghost use Rattle.agreement.specs.Runners.{runner_of};

use interp::answer::Run;
use interp::{run_eager, run_lazy};
use irrelevance::answer::NamingRefusal;
use typing::answer::{Accepted, Rejection};

#[derive(Clone, Copy)]
pub struct Compared {
    pub verdict: Result<Accepted, Rejection>,
    pub enforced: Run,
    pub skipped: Run,
}

#[derive(Clone, Copy)]
pub struct ComparedStarts {
    pub named: Result<Option<u16>, NamingRefusal>,
    pub first: Run,
    pub second: Run,
}

// A run of either runner. An eager one leaves the frame store as it is.
fn run_either(
    lazy: bool,
    sheet: &[u8],
    start: &[u32],
    calls: u32,
    depth: u32,
    enforce: bool,
    cells: &mut [u8],
    posts: &mut [u32],
    frames: &mut [u32],
) -> Run
    ensures { after result cells.new posts.new frames.new
        ≡ run sheet.now (request_of (runner_of lazy) enforce start.now calls depth)
        (buffers_of cells.old posts.old frames.old) }
{
    if lazy {
        return run_lazy(sheet, start, calls, depth, enforce, cells, posts, frames);
    }
    run_eager(sheet, start, calls, depth, enforce, cells, posts)
}

// The verdict and the two runs, each of either runner and on buffers of its own.
pub fn compare_checks(
    sheet: &[u8],
    start: &[u32],
    calls: u32,
    depth: u32,
    lazy: bool,
    cells: &mut [u8],
    posts: &mut [u32],
    frames: &mut [u32],
    lazy2: bool,
    cells2: &mut [u8],
    posts2: &mut [u32],
    frames2: &mut [u32],
) -> Compared
    ensures verdict_value { verdict_model result.verdict ≡ verdict sheet.now }
    ensures first_run { after result.«enforced» cells.new posts.new frames.new
        ≡ run sheet.now (request_of (runner_of lazy) true start.now calls depth)
        (buffers_of cells.old posts.old frames.old) }
    ensures second_run { after result.«skipped» cells2.new posts2.new frames2.new
        ≡ run sheet.now (request_of (runner_of lazy2) false start.now calls depth)
        (buffers_of cells2.old posts2.old frames2.old) }
    ensures agreement { length cells.old ≡ length cells2.old → length posts.old ≡ length posts2.old
        → Agreement sheet.now start.now result.verdict (after result.«enforced» cells.new posts.new frames.new)
        (after result.«skipped» cells2.new posts2.new frames2.new) }
{
    let verdict = checker::typecheck(sheet);
    let first = run_either(lazy, sheet, start, calls, depth, true, cells, posts, frames);
    let second = run_either(
        lazy2, sheet, start, calls, depth, false, cells2, posts2, frames2,
    );
    Compared {
        verdict: verdict,
        enforced: first,
        skipped: second,
    }
}

// Whether the sheet names a privilege, and two runs with checks in force, each from a start of its own, of either runner and on buffers of its own.
pub fn compare_starts(
    sheet: &[u8],
    privilege: u32,
    calls: u32,
    depth: u32,
    start: &[u32],
    lazy: bool,
    cells: &mut [u8],
    posts: &mut [u32],
    frames: &mut [u32],
    start2: &[u32],
    lazy2: bool,
    cells2: &mut [u8],
    posts2: &mut [u32],
    frames2: &mut [u32],
) -> ComparedStarts
    ensures named_value { named_model result.named ≡ naming sheet.now privilege }
    ensures first_run { after result.first cells.new posts.new frames.new
        ≡ run sheet.now (request_of (runner_of lazy) true start.now calls depth)
        (buffers_of cells.old posts.old frames.old) }
    ensures second_run { after result.second cells2.new posts2.new frames2.new
        ≡ run sheet.now (request_of (runner_of lazy2) true start2.now calls depth)
        (buffers_of cells2.old posts2.old frames2.old) }
    ensures irrelevance { length cells.old ≡ length cells2.old → length posts.old ≡ length posts2.old
        → Irrelevance sheet.now privilege start.now start2.now result.named
        (after result.first cells.new posts.new frames.new)
        (after result.second cells2.new posts2.new frames2.new) }
{
    let named = naming::names(sheet, privilege);
    let first = run_either(lazy, sheet, start, calls, depth, true, cells, posts, frames);
    let second = run_either(
        lazy2, sheet, start2, calls, depth, true, cells2, posts2, frames2,
    );
    ComparedStarts {
        named: named,
        first: first,
        second: second,
    }
}
