// The two runners on any bytes, start stack, limits and buffers, each with a record of what it decides or without one.
#![tactic(auto)]

ghost use Rattle.std.specs.Prelude.{true, [], Ok, ◌≡◌, eqb, length};
ghost use Rattle.semantics.specs.Runs.{eager as eager_runner, lazy as lazy_runner, run};
ghost use Rattle.semantics.specs.Recording.{recording};
ghost use Rattle.program.specs.Limits.{frame_numbers};
ghost use Rattle.accessors.specs.Internal.{FormedSheet};
ghost use Rattle.refinement.specs.Claims.{outcome_of};
ghost use Rattle.interp.specs.Answers.{outcome_model, request_of, buffers_of, after, after_recording};
ghost use Rattle.interp.specs.Internal.{Cleared, RootEvaluated};

pub mod admission;
pub mod answer;
pub mod evaluation;
pub mod start;

use access::{Mode, clear_frames};
use admission::admit;
use answer::{Ground, Ran, RecordedRun, Run, RunRefusal};
use evaluation::evaluate_words;
use program::limits::{FRAME_NUMBERS, TERM_PLACES};
use program::records::Counts;
use start::{lay_frames, start_access};
use stores::values::{Stop, Value};
use stores::words::out_of;
use termtable::decode_terms;

// A root that gives a function is stuck.
fn outcome_of(root: u16, out: Result<Value, Stop>) -> Result<Ground, Stop>
    ensures { outcome_model result ≡ outcome_of root out }
{
    match out? {
        Value::Bool(b) => Ok(Ground::Bool(b)),
        Value::Num(n) => Ok(Ground::Num(n)),
        Value::Fun { .. } => Err(Stop::Stuck(root)),
    }
}

// Decodes the terms, evaluates the root and tells the outcome.
fn evaluate(
    s: &[u8],
    c: Counts,
    cells: &mut [u8],
    posts: &mut [u32],
    frames: &mut [u32],
    noted: &mut [u8],
    mode: Mode,
    access: u64,
    calls: u32,
    depth: u32,
) -> RecordedRun
    requires { FormedSheet s.now c }
    ensures { RootEvaluated s.now c mode access calls depth (buffers_of cells.old posts.old frames.old)
        noted.old result (buffers_of cells.new posts.new frames.new) noted.new }
{
    let root = c.terms - 1;
    let mut terms = [0; TERM_PLACES];
    decode_terms(s, c, &mut terms);
    let t = evaluate_words(
        &terms, root, cells, posts, frames, noted, mode, access, calls, depth,
    );
    let outcome = outcome_of(root, out_of(t.word));
    RecordedRun {
        ran: Ran {
            outcome,
            made: t.made,
        },
        entries: t.entries,
    }
}

// The eager runner holds the granted set; its frame store is never looked at.
fn eager(
    s: &[u8],
    c: Counts,
    start: &[u32],
    calls: u32,
    depth: u32,
    enforce: bool,
    cells: &mut [u8],
    posts: &mut [u32],
    noted: &mut [u8],
) -> RecordedRun
    requires { Cleared s.now start.now (length cells.old) (length posts.old) true calls depth c }
    ensures { after_recording (Ok result) cells.new posts.new [] noted.new
        ≡ recording s.now (request_of eager_runner enforce start.now calls depth)
        (buffers_of cells.old posts.old []) noted.old }
{
    let access = start_access(s, start);
    let mode = Mode {
        lazy: false,
        enforce: enforce,
        intervals: false,
    };
    let mut frames = [0; 1];
    evaluate(
        s,
        c,
        cells,
        posts,
        &mut frames,
        noted,
        mode,
        access,
        calls,
        depth,
    )
}

// The lazy runner walks the frames of its store, which it leaves cleared.
fn lazy(
    s: &[u8],
    c: Counts,
    start: &[u32],
    calls: u32,
    depth: u32,
    enforce: bool,
    cells: &mut [u8],
    posts: &mut [u32],
    frames: &mut [u32],
    noted: &mut [u8],
) -> RecordedRun
    requires { Cleared s.now start.now (length cells.old) (length posts.old) (eqb (length frames.old) frame_numbers) calls depth c }
    ensures { after_recording (Ok result) cells.new posts.new frames.new noted.new
        ≡ recording s.now (request_of lazy_runner enforce start.now calls depth)
        (buffers_of cells.old posts.old frames.old) noted.old }
{
    lay_frames(s, start, frames);
    let mode = Mode {
        lazy: true,
        enforce: enforce,
        intervals: false,
    };
    let r = evaluate(
        s,
        c,
        cells,
        posts,
        frames,
        noted,
        mode,
        start.len() as u64,
        calls,
        depth,
    );
    clear_frames(frames);
    r
}

// A run that holds the granted set, and notes what it decides in a record of four bytes an entry.
pub fn record_eager(
    sheet: &[u8],
    start: &[u32],
    calls: u32,
    depth: u32,
    enforce: bool,
    cells: &mut [u8],
    posts: &mut [u32],
    noted: &mut [u8],
) -> Result<RecordedRun, RunRefusal>
    ensures { after_recording result cells.new posts.new [] noted.new
        ≡ recording sheet.now (request_of eager_runner enforce start.now calls depth)
        (buffers_of cells.old posts.old []) noted.old }
{
    let c = admit(sheet, start, cells.len(), posts.len(), true, calls, depth)?;
    Ok(eager(sheet, c, start, calls, depth, enforce, cells, posts, noted))
}

// A run that walks the frames of a store of 6,496 numbers, and notes what it decides.
pub fn record_lazy(
    sheet: &[u8],
    start: &[u32],
    calls: u32,
    depth: u32,
    enforce: bool,
    cells: &mut [u8],
    posts: &mut [u32],
    frames: &mut [u32],
    noted: &mut [u8],
) -> Result<RecordedRun, RunRefusal>
    ensures { after_recording result cells.new posts.new frames.new noted.new
        ≡ recording sheet.now (request_of lazy_runner enforce start.now calls depth)
        (buffers_of cells.old posts.old frames.old) noted.old }
{
    let c = admit(
        sheet,
        start,
        cells.len(),
        posts.len(),
        frames.len() == FRAME_NUMBERS,
        calls,
        depth,
    )?;
    Ok(lazy(
        sheet, c, start, calls, depth, enforce, cells, posts, frames, noted,
    ))
}

// A run that holds the granted set, without a record.
pub fn run_eager(
    sheet: &[u8],
    start: &[u32],
    calls: u32,
    depth: u32,
    enforce: bool,
    cells: &mut [u8],
    posts: &mut [u32],
) -> Run
    ensures { after result cells.new posts.new []
        ≡ run sheet.now (request_of eager_runner enforce start.now calls depth) (buffers_of cells.old posts.old []) }
{
    let mut none = [0; 0];
    let r = record_eager(sheet, start, calls, depth, enforce, cells, posts, &mut none)?;
    Ok(r.ran)
}

// A run that walks the frames of a store of 6,496 numbers, without a record.
pub fn run_lazy(
    sheet: &[u8],
    start: &[u32],
    calls: u32,
    depth: u32,
    enforce: bool,
    cells: &mut [u8],
    posts: &mut [u32],
    frames: &mut [u32],
) -> Run
    ensures { after result cells.new posts.new frames.new
        ≡ run sheet.now (request_of lazy_runner enforce start.now calls depth)
        (buffers_of cells.old posts.old frames.old) }
{
    let mut none = [0; 0];
    let r = record_lazy(
        sheet, start, calls, depth, enforce, cells, posts, frames, &mut none,
    )?;
    Ok(r.ran)
}
