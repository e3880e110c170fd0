// What a letrec, a check, a sign and a test do before the one child that they end as.
ghost use Rattle.std.specs.Prelude.{◌≡◌};
ghost use Rattle.machine.specs.Tails.{TailWord, going, halting, TailSteps};

use crate::counters::Counters;
use crate::notes::note;
use crate::steps::choose;
use access::{granted, sign};
use stores::cells::{bind, next_cell};
use stores::words;
use termtable::{authority_of, first_of, kind_of, second_of, small_of, third_of};

// The child to evaluate, with its environment and access; or a stop, where 0 is none.
#[derive(Clone, Copy)]
pub struct TailStep {
    pub stop: u64,
    pub next: u16,
    pub env: u16,
    pub access: u64,
}

fn goes(next: u16, env: u16, access: u64) -> TailStep
    ensures { result ≡ going next env access }
{
    TailStep {
        stop: 0,
        next: next,
        env: env,
        access: access,
    }
}

fn halts(stop: u64, next: u16) -> TailStep
    ensures { result ≡ halting stop next }
{
    TailStep {
        stop: stop,
        next: next,
        env: 0,
        access: 0,
    }
}

pub fn tail_step(
    cells: &mut [u8],
    frames: &mut [u32],
    noted: &mut [u8],
    counters: &mut Counters,
    t: u16,
    x: u64,
    env: u16,
    access: u64,
) -> TailStep
    requires { TailWord x }
    ensures { TailSteps t x env access counters.old cells.old frames.old noted.old result counters.new
        cells.new frames.new noted.new }
{
    let kind = kind_of(x);
    if kind == 4 {
        let k = counters.cells;
        let own = next_cell(k);
        let made = bind(cells, k, words::function(second_of(x), own), env);
        if made == 0 {
            return halts(words::stop(21, t), third_of(x));
        }
        counters.cells = made;
        return goes(third_of(x), own, access);
    }
    if kind == 9 {
        return goes(
            first_of(x),
            env,
            sign(frames, counters.mode.lazy, access, authority_of(x)),
        );
    }
    // A check that is skipped decides nothing; any other decides and notes as a test does.
    if (kind == 7) & !counters.mode.enforce {
        return goes(first_of(x), env, access);
    }
    let p = small_of(x);
    let yes = granted(frames, counters.mode.lazy, access, p);
    note(noted, counters, t, p, yes);
    if kind == 10 {
        return goes(choose(yes, first_of(x), second_of(x)), env, access);
    }
    if yes {
        return goes(first_of(x), env, access);
    }
    halts(words::stop(17, t), first_of(x))
}
