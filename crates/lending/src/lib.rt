// The evaluator on slices that a caller lends.
#![tactic(auto)]

ghost use Rattle.machine.specs.Store.{eval_at};
ghost use Rattle.evaluator.specs.Promises.{TermTable, Evaluated};

use evaluator::eval;
use machine::counters::Counters;
use program::limits::TERM_PLACES;

// Evaluates term t in the empty environment. The slices are lent out of a tuple: of a slice that is lent out of a local of its own, the check knows
// only the length afterwards.
pub fn run(
    terms: &[u64; TERM_PLACES],
    cells: &mut [u8],
    posts: &mut [u32],
    frames: &mut [u32],
    noted: &mut [u8],
    counters: &mut Counters,
    t: u16,
    access: u64,
    depth: usize,
) -> u64
    requires { TermTable terms.now }
    ensures { Evaluated (eval_at terms.now depth t 0 access) counters.old cells.entry posts.entry frames.entry
        noted.entry result counters.new cells.exit posts.exit frames.exit noted.exit }
{
    let (cells, posts, frames, noted) = &mut (cells, posts, frames, noted);
    eval(
        terms, cells, counters, t, 0, access, depth, frames, posts, noted,
    )
}
