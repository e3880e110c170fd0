// The print of a sheet: it is judged and, if accepted, run, and both are told in lines of text.
#![tactic(auto)]

pub mod answer;

ghost use Rattle.std.specs.Prelude.{[], ◌≡◌};
ghost use Rattle.interp.specs.Answers.{buffers_of};
ghost use Rattle.report.specs.Reports.{after_report, reported};
ghost use Rattle.report.specs.Internal.{LargestBuffers, RunReported, Rendered, Delivered};

use crate::answer::Undelivered;
use checker::typecheck;
use drafts::draft::Draft;
use interp::run_eager;
use numbers::Code;
use program::limits::{MAX_CALLS, MAX_CELLS, MAX_DEPTH, MAX_POSTS};
use typing::answer::Accepted;

// Judges the sheet and, if it is accepted, runs it eagerly, checks in force, on an empty stack with the largest allowances, in the lent cell store
// and list of posts, which must be the largest. The text goes to the front of `text`, if it fits there, and its length is told.
pub fn report(
    sheet: &[u8],
    cells: &mut [u8],
    posts: &mut [u32],
    text: &mut [u8],
) -> Result<usize, Undelivered>
    ensures { after_report result cells.new posts.new text.new
        ≡ reported sheet.now (buffers_of cells.old posts.old []) text.old }
{
    if cells.len() != MAX_CELLS {
        return Err(Undelivered::Unfit);
    }
    if posts.len() != MAX_POSTS {
        return Err(Undelivered::Unfit);
    }
    let d = render(sheet, cells, posts);
    deliver(d.as_bytes(), text)
}

// The whole text, and the run behind it.
fn render(sheet: &[u8], cells: &mut [u8], posts: &mut [u32]) -> Draft
    requires { LargestBuffers cells.old posts.old }
    ensures { Rendered sheet.now (buffers_of cells.old posts.old [])
        (buffers_of cells.new posts.new []) result }
{
    match typecheck(sheet) {
        Ok(x) => run_accepted(sheet, cells, posts, x),
        Err(f) => drafts::lines::refusal(Code::from(f)),
    }
}

// The run of an accepted sheet, and its text.
fn run_accepted(sheet: &[u8], cells: &mut [u8], posts: &mut [u32], x: Accepted) -> Draft
    ensures { RunReported sheet.now x.terms x.ty x.needs (buffers_of cells.old posts.old [])
        (buffers_of cells.new posts.new []) result }
{
    let r = run_eager(sheet, &[], MAX_CALLS, MAX_DEPTH, true, cells, posts);
    match r {
        Err(f) => drafts::lines::refusal(Code::from(f)),
        Ok(ran) => drafts::lines::accepted(x.terms, x.ty, x.needs, ran.outcome, ran.made),
    }
}

// Copies the text to its place, if it fits there.
fn deliver(d: &[u8], text: &mut [u8]) -> Result<usize, Undelivered>
    ensures { Delivered d.now text.old result text.new }
{
    let n = d.len();
    if text.len() < n {
        return Err(Undelivered::TooShort(n));
    }
    text[..n].copy_from_slice(d);
    Ok(n)
}
