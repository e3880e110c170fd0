// Nesting: refusal 8.
ghost use Rattle.std.specs.Prelude.{◌≡◌, ◌<◌, ◌≤◌};
ghost use Rattle.program.specs.Limits.{max_terms};
ghost use Rattle.program.specs.Screening.{lowest};
ghost use Rattle.program.specs.Search.{found_model};
ghost use Rattle.decoder.specs.Internal.{ParentList, Nested, shallow_enough};

use program::limits::{MAX_NESTING, TERM_PLACES};

// Where a nesting that is too deep is held.
const TOO_DEEP: u8 = MAX_NESTING + 1;

// Each term's nesting, held there where it is too deep. A parent has a higher number than its child, so that one pass from the root down gives all of it.
pub fn nestings(parents: &[u16; TERM_PLACES], n: u16) -> [u8; TERM_PLACES]
    requires { ParentList parents.now n }
    ensures { Nested parents.now result n 0 }
{
    let mut deep = [0u8; TERM_PLACES];
    let root = usize::from(n) - 1;
    deep[root] = 1;
    for t in (0..root).rev() {
        let parent = usize::from(parents[t]);
        deep[t] = deep[parent].saturating_add(1).min(TOO_DEEP);
    }
    deep
}

// The lowest term nested too deep.
pub fn too_deep(deep: &[u8; TERM_PLACES], n: u16) -> Option<u16>
    requires { n ≤ max_terms }
    ensures { found_model result ≡ lowest (shallow_enough deep.now) 0 n }
{
    (0..n).find(
        |&t|
            requires { t < max_terms }
        { MAX_NESTING < deep[usize::from(t)] },
    )
}
