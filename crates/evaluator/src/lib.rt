// The evaluator of both runners over the words of a readable sheet's terms: evaluating a term and applying a function call each other. Its contracts
// speak of the store-level interpreter in machine/specs/Store.antt; the crate `refinement` takes that to the meaning. The bytes of the record are `noted`.
// The lent stores are handed on as references to the slices, so that no call copies one. What few terms look at comes last among the parameters: the
// first six are in registers.
#![tactic(auto)]

ghost use Rattle.machine.specs.Store.{enable, eval_at, apply_at};
ghost use Rattle.evaluator.specs.Promises.{TermTable, Node, Tail, FirstNode, PairNode, second_at, Evaluated};

use machine::counters::Counters;
use machine::steps::{append, choose, operate};
use machine::tail::tail_step;
use program::limits::TERM_PLACES;
use stores::cells::{bind, look, next_cell};
use stores::words;
use termtable::{first_of, kind_of, second_of, small_of, third_of, word_at};

// Evaluates term t.
#[cycle(evaluation)]
pub fn eval(
    terms: &[u64; TERM_PLACES],
    cells: &mut &mut [u8],
    counters: &mut Counters,
    t: u16,
    env: u16,
    access: u64,
    depth: usize,
    frames: &mut &mut [u32],
    posts: &mut &mut [u32],
    noted: &mut &mut [u8],
) -> u64
    requires { TermTable terms.now }
    ensures { Evaluated (eval_at terms.now depth t env access) counters.old cells.old posts.old
        frames.old
        noted.old result counters.new cells.new posts.new frames.new noted.new }
{
    let x = word_at(terms, t);
    let kind = kind_of(x);
    match kind {
        0 => words::boolean(0 < small_of(x)),
        1 => words::interval(first_of(x), second_of(x)),
        2 => look(*cells, t, env, first_of(x)),
        3 => words::function(second_of(x), env),
        5 | 6 | 11..=255 => eval_first(
            terms, cells, counters, t, env, access, x, depth, frames, posts, noted,
        ),
        8 => eval_enable(
            terms, cells, counters, t, env, access, x, depth, frames, posts, noted,
        ),
        // letrec, check, sign and test: 4, 7, 9 and 10
        _ => eval_tail(
            terms, cells, counters, t, env, access, x, depth, frames, posts, noted,
        ),
    }
}

// A letrec, check, sign or test ends as one child, after a step of its own.
#[cycle(evaluation)]
fn eval_tail(
    terms: &[u64; TERM_PLACES],
    cells: &mut &mut [u8],
    counters: &mut Counters,
    t: u16,
    env: u16,
    access: u64,
    x: u64,
    depth: usize,
    frames: &mut &mut [u32],
    posts: &mut &mut [u32],
    noted: &mut &mut [u8],
) -> u64
    requires { Tail terms.now t x }
    ensures { Evaluated (eval_at terms.now depth t env access) counters.old cells.old posts.old
        frames.old
        noted.old result counters.new cells.new posts.new frames.new noted.new }
{
    let e = tail_step(*cells, *frames, *noted, counters, t, x, env, access);
    if words::is_stop(e.stop) {
        return e.stop;
    }
    eval(
        terms, cells, counters, e.next, e.env, e.access, depth, frames, posts, noted,
    )
}

// Enables a privilege while the inner term runs.
#[cycle(evaluation)]
fn eval_enable(
    terms: &[u64; TERM_PLACES],
    cells: &mut &mut [u8],
    counters: &mut Counters,
    t: u16,
    env: u16,
    access: u64,
    x: u64,
    depth: usize,
    frames: &mut &mut [u32],
    posts: &mut &mut [u32],
    noted: &mut &mut [u8],
) -> u64
    requires { Node terms.now t x enable }
    ensures { Evaluated (eval_at terms.now depth t env access) counters.old cells.old posts.old
        frames.old
        noted.old result counters.new cells.new posts.new frames.new noted.new }
{
    let lazy = counters.mode.lazy;
    let old = access::enabled_now(*frames, lazy, access);
    let inner = access::enable(*frames, lazy, access, small_of(x));
    let w = eval(
        terms,
        cells,
        counters,
        first_of(x),
        env,
        inner,
        depth,
        frames,
        posts,
        noted,
    );
    access::restore(*frames, lazy, access, old);
    w
}

// A call, an if, an operation or a post: its first child, and by that word what follows; of an if, one of two branches.
#[cycle(evaluation)]
fn eval_first(
    terms: &[u64; TERM_PLACES],
    cells: &mut &mut [u8],
    counters: &mut Counters,
    t: u16,
    env: u16,
    access: u64,
    x: u64,
    depth: usize,
    frames: &mut &mut [u32],
    posts: &mut &mut [u32],
    noted: &mut &mut [u8],
) -> u64
    requires { FirstNode terms.now t x }
    ensures { Evaluated (eval_at terms.now depth t env access) counters.old cells.old posts.old
        frames.old
        noted.old result counters.new cells.new posts.new frames.new noted.new }
{
    let a = eval(
        terms,
        cells,
        counters,
        first_of(x),
        env,
        access,
        depth,
        frames,
        posts,
        noted,
    );
    if words::is_stop(a) {
        return a;
    }
    let kind = kind_of(x);
    if 13 < kind {
        return append(*posts, *frames, *noted, counters, t, x, access, a);
    }
    if kind != 6 {
        return eval_second(
            terms, cells, counters, t, env, access, x, a, depth, frames, posts, noted,
        );
    }
    if words::sort(a) != 0 {
        return words::stop(18, t);
    }
    if words::payload(a) == 2 {
        return words::stop(36, t);
    }
    let branch = choose(0 < words::payload(a), second_of(x), third_of(x));
    eval(
        terms, cells, counters, branch, env, access, depth, frames, posts, noted,
    )
}

// A call or an operation after the word a of its first child: the argument or the second number, and what both come to.
#[cycle(evaluation)]
fn eval_second(
    terms: &[u64; TERM_PLACES],
    cells: &mut &mut [u8],
    counters: &mut Counters,
    t: u16,
    env: u16,
    access: u64,
    x: u64,
    a: u64,
    depth: usize,
    frames: &mut &mut [u32],
    posts: &mut &mut [u32],
    noted: &mut &mut [u8],
) -> u64
    requires { PairNode terms.now t x }
    ensures { Evaluated (second_at terms.now depth t x env access a) counters.old cells.old posts.old
        frames.old noted.old result counters.new cells.new posts.new frames.new noted.new }
{
    let b = eval(
        terms,
        cells,
        counters,
        second_of(x),
        env,
        access,
        depth,
        frames,
        posts,
        noted,
    );
    if words::is_stop(b) {
        return b;
    }
    let kind = kind_of(x);
    if kind == 5 {
        return apply(
            terms, cells, counters, t, access, a, b, depth, frames, posts, noted,
        );
    }
    operate(counters, kind, t, a, b)
}

// Applies f to v at the call t: 18, 19, 20, 21, or its body runs in the access `caller`, with its argument in a new cell.
#[cycle(evaluation)]
fn apply(
    terms: &[u64; TERM_PLACES],
    cells: &mut &mut [u8],
    counters: &mut Counters,
    t: u16,
    caller: u64,
    f: u64,
    v: u64,
    depth: usize,
    frames: &mut &mut [u32],
    posts: &mut &mut [u32],
    noted: &mut &mut [u8],
) -> u64
    requires { TermTable terms.now }
    ensures { Evaluated (apply_at terms.now depth t f v caller) counters.old cells.old posts.old
        frames.old noted.old result counters.new cells.new posts.new frames.new
        noted.new }
{
    if words::sort(f) != 2 {
        return words::stop(18, t);
    }
    if depth == 0 {
        return words::stop(19, t);
    }
    let calls = counters.calls_left;
    if calls == 0 {
        return words::stop(20, t);
    }
    let k = counters.cells;
    let made = bind(*cells, k, v, words::env(f));
    if made == 0 {
        return words::stop(21, t);
    }
    counters.calls_left = calls - 1;
    counters.cells = made;
    let body = words::payload(f);
    let own = next_cell(k);
    eval(
        terms,
        cells,
        counters,
        body,
        own,
        caller,
        depth - 1,
        frames,
        posts,
        noted,
    )
}
