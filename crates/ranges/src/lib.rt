// An eager run whose number terms are known within limits, on any bytes, pairs, start stack, limits and buffers.
#![tactic(auto)]

ghost use Rattle.std.specs.Prelude.{true, [], Ok, ◌≡◌, length};
ghost use Rattle.semantics.specs.Runs.{eager as eager_runner};
ghost use Rattle.intervals.specs.Runs.{interval_run};
ghost use Rattle.refinement.specs.Claims.{decided_by, interval_outcome_of};
ghost use Rattle.interp.specs.Answers.{request_of, buffers_of};
ghost use Rattle.interp.specs.Internal.{Cleared};
ghost use Rattle.ranges.specs.Answers.{truth_model, interval_outcome_model, after_intervals};
ghost use Rattle.ranges.specs.Internal.{PairedRun};

pub mod answer;

use access::Mode;
use answer::{IntervalGround, IntervalRan, IntervalRefusal, IntervalRun, Truth};
use interp::admission::admit;
use interp::evaluation::evaluate_words;
use interp::start::start_access;
use pairs::{lay_pairs, pairs_ok};
use program::limits::TERM_PLACES;
use program::records::Counts;
use stores::values::{Stop, Value};
use stores::words::{env, out_of, payload};
use termtable::decode_terms;

// What a boolean's payload says.
fn truth_of(payload: u16) -> Truth
    ensures { truth_model result ≡ decided_by payload }
{
    if payload == 2 {
        return Truth::Undecided;
    }
    if 0 < payload {
        return Truth::Yes;
    }
    Truth::No
}

// A root that gives a function is stuck.
#[tactic(auto, unfolding(refinement::specs::Claims::interval_outcome_by))]
fn outcome_of(root: u16, word: u64) -> Result<IntervalGround, Stop>
    ensures { interval_outcome_model result ≡ interval_outcome_of root word }
{
    match out_of(word)? {
        Value::Bool(_) => Ok(IntervalGround::Truth(truth_of(payload(word)))),
        Value::Num(_) => Ok(IntervalGround::Interval {
            lowest: payload(word),
            highest: env(word),
        }),
        Value::Fun { .. } => Err(Stop::Stuck(root)),
    }
}

// Decodes the terms, gives the number terms their pairs, evaluates the root and tells the outcome. Neither a frame store nor a record is looked at.
fn evaluate(
    s: &[u8],
    c: Counts,
    pairs: &[u16],
    start: &[u32],
    calls: u32,
    depth: u32,
    enforce: bool,
    cells: &mut [u8],
    posts: &mut [u32],
) -> IntervalRan
    requires { PairedRun s.now pairs.now start.now (length cells.old) (length posts.old) calls depth c }
    ensures { after_intervals (Ok result) cells.new posts.new
        ≡ interval_run s.now pairs.now (request_of eager_runner enforce start.now calls depth)
        (buffers_of cells.old posts.old []) }
{
    let root = c.terms - 1;
    let mut terms = [0; TERM_PLACES];
    decode_terms(s, c, &mut terms);
    lay_pairs(s, c, pairs, &mut terms);
    let mode = Mode {
        lazy: false,
        enforce: enforce,
        intervals: true,
    };
    let access = start_access(s, start);
    let mut frames = [0; 1];
    let mut none = [0; 0];
    let t = evaluate_words(
        &terms,
        root,
        cells,
        posts,
        &mut frames,
        &mut none,
        mode,
        access,
        calls,
        depth,
    );
    IntervalRan {
        outcome: outcome_of(root, t.word),
        made: t.made,
    }
}

// 35, then the run.
fn run_admitted(
    s: &[u8],
    c: Counts,
    pairs: &[u16],
    start: &[u32],
    calls: u32,
    depth: u32,
    enforce: bool,
    cells: &mut [u8],
    posts: &mut [u32],
) -> IntervalRun
    requires { Cleared s.now start.now (length cells.old) (length posts.old) true calls depth c }
    ensures { after_intervals result cells.new posts.new
        ≡ interval_run s.now pairs.now (request_of eager_runner enforce start.now calls depth)
        (buffers_of cells.old posts.old []) }
{
    if !pairs_ok(s, c, pairs) {
        return Err(IntervalRefusal::Pairs);
    }
    Ok(evaluate(s, c, pairs, start, calls, depth, enforce, cells, posts))
}

// A run over ranges: a pair of numbers, lowest and highest, for each number term of a version 1 sheet, in term order.
pub fn run(
    sheet: &[u8],
    pairs: &[u16],
    start: &[u32],
    calls: u32,
    depth: u32,
    enforce: bool,
    cells: &mut [u8],
    posts: &mut [u32],
) -> IntervalRun
    ensures { after_intervals result cells.new posts.new
        ≡ interval_run sheet.now pairs.now (request_of eager_runner enforce start.now calls depth)
        (buffers_of cells.old posts.old []) }
{
    let c = admit(sheet, start, cells.len(), posts.len(), true, calls, depth)?;
    run_admitted(sheet, c, pairs, start, calls, depth, enforce, cells, posts)
}
