// A run over ranges, for C. include/sovzedal.h documents each argument.
#![tactic(auto)]

ghost use Rattle.std.specs.Prelude.{[], ◌≡◌};
ghost use Rattle.semantics.specs.Runs.{eager as eager_runner};
ghost use Rattle.intervals.specs.Runs.{interval_run};
ghost use Rattle.interp.specs.Answers.{counts_model, request_of, buffers_of};
ghost use Rattle.numbers.specs.Codes.{CodeIs};
ghost use Rattle.replies.specs.Replies.{enforce_flag, returned_run};
ghost use Rattle.replies.specs.Internal.{reply_model};
ghost use Rattle.ranges.specs.Answers.{truth_model, interval_outcome_model, interval_refusal_cause, interval_refusal_place, interval_run_model};
ghost use Rattle.capi_ranges.specs.Entries.{truth_number, interval_finished, interval_reply, interval_call};
ghost use Rattle.capi_ranges.specs.Internal.{Uncounted, IntervalReplyFits};

use interp::answer::RunCounts;
use numbers::Code;
use ranges::answer::{IntervalGround, IntervalRefusal, IntervalRun, Truth};
use replies::{ANSWER_NUMBERS, Reply, counted, put, refused};
use stores::values::Stop;

fn truth_number(t: Truth) -> u32
    ensures { result ≡ truth_number (truth_model t) }
{
    match t {
        Truth::No => 0,
        Truth::Yes => 1,
        Truth::Undecided => 2,
    }
}

fn of_outcome(o: Result<IntervalGround, Stop>, m: RunCounts) -> Reply
    requires { Uncounted m }
    ensures { reply_model result ≡ interval_finished (interval_outcome_model o) (counts_model m) }
{
    let none = Code { cause: 0, place: 0 };
    match o {
        Err(x) => counted(1, Code::from(x), 0, 0, m),
        Ok(IntervalGround::Truth(t)) => counted(0, none, 0, truth_number(t), m),
        Ok(IntervalGround::Interval { lowest, highest }) => counted(
            0,
            none,
            1,
            (lowest as u32) * 65536 + (highest as u32),
            m,
        ),
    }
}

// The refusals of a plain run, and 35.
fn of_refusal(f: IntervalRefusal) -> Code
    ensures { CodeIs (interval_refusal_cause f) (interval_refusal_place f) result }
{
    match f {
        IntervalRefusal::Run(x) => Code::from(x),
        IntervalRefusal::Pairs => Code {
            cause: 35,
            place: 0,
        },
    }
}

fn of_run(x: IntervalRun) -> Reply
    requires { IntervalReplyFits x }
    ensures { reply_model result ≡ interval_reply (interval_run_model x) }
{
    match x {
        Err(f) => refused(of_refusal(f)),
        Ok(ran) => of_outcome(ran.outcome, ran.made),
    }
}

pub fn ranges(
    sheet: &[u8],
    pairs: &[u16],
    start: &[u32],
    calls: u32,
    depth: u32,
    enforce: u32,
    cells: &mut [u8],
    posts: &mut [u32],
    answer: &mut [u32],
) -> u32
    ensures { returned_run result answer.new (buffers_of cells.new posts.new [])
        ≡ interval_call answer.old (buffers_of cells.old posts.old [])
        (interval_run sheet.now pairs.now (request_of eager_runner (enforce_flag enforce) start.now calls depth)
        (buffers_of cells.old posts.old [])) }
{
    if answer.len() < ANSWER_NUMBERS {
        return 3;
    }
    let r = ranges::run(
        sheet,
        pairs,
        start,
        calls,
        depth,
        enforce != 0,
        cells,
        posts,
    );
    put(of_run(r), answer)
}
