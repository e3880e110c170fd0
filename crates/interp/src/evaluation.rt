// Evaluation of a root over the words of its terms, however they were made.
ghost use Rattle.evaluator.specs.Promises.{TermTable};
ghost use Rattle.interp.specs.Answers.{buffers_of};
ghost use Rattle.interp.specs.Internal.{root_done, Tallied};

use crate::answer::{RunCounts, Tally};
use access::Mode;
use machine::counters::Counters;
use program::limits::TERM_PLACES;

// Evaluates the root in the empty environment and clears the cells.
pub fn evaluate_words(
    terms: &[u64; TERM_PLACES],
    root: u16,
    cells: &mut [u8],
    posts: &mut [u32],
    frames: &mut [u32],
    noted: &mut [u8],
    mode: Mode,
    access: u64,
    calls: u32,
    depth: u32,
) -> Tally
    requires { TermTable terms.now }
    ensures { Tallied calls (root_done terms.now root mode access calls depth
        (buffers_of cells.old posts.old frames.old) noted.old) result
        (buffers_of cells.new posts.new frames.new) noted.new }
{
    let allowed = calls as usize;
    let mut counters = Counters {
        calls_left: allowed,
        cells: 0,
        posts: 0,
        mode,
        saturated: 0,
        entries: 0,
    };
    let word = lending::run(
        terms,
        cells,
        posts,
        frames,
        noted,
        &mut counters,
        root,
        access,
        depth as usize,
    );
    stores::cells::clear(cells);
    let made = RunCounts {
        calls: allowed - counters.calls_left,
        cells: counters.cells,
        posts: counters.posts,
        saturated: counters.saturated,
    };
    Tally {
        word,
        made,
        entries: counters.entries,
    }
}
