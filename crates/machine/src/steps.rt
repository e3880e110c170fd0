// The steps of a run that evaluate no other term.
ghost use Rattle.std.specs.Prelude.{◌≡◌, ◌+◌, ◌-◌, true, if◌then◌else◌};
ghost use Rattle.program.specs.Decoding.{is_guard};
ghost use Rattle.stores.specs.Words.{number_word, payload_of, env_of};
ghost use Rattle.machine.specs.Steps.{counters_saturated, less_word, interval_result, Operated, Guarded, cause_of, entry_of, listed_as, PostAppended};
ghost use Rattle.termtable.specs.Table.{word_guard};

use crate::counters::Counters;
use crate::notes::note;
use access::granted;
use program::limits::{MAX_NUMBER, NO_GUARD};
use stores::words;
use termtable::{guard_of, small_of};

// One of two numbers. It is a function of its own, since what a join of two branches gives is lost to the proof of the call behind it.
pub fn choose(yes: bool, a: u16, b: u16) -> u16
    ensures { result ≡ (if yes then a else b) }
{
    if yes { a } else { b }
}

// A limit in the place of a result past it, which is counted.
fn saturate(counters: &mut Counters, limit: u16) -> u64
    ensures answer_is { result ≡ number_word limit }
    ensures counters_are { counters.new ≡ counters_saturated counters.old }
{
    counters.saturated = counters.saturated.wrapping_add(1);
    words::number(limit)
}

// Less of two intervals: decided where all their numbers agree.
fn less(a: u16, a_most: u16, b: u16, b_most: u16) -> u64
    ensures { result ≡ less_word a a_most b b_most }
{
    if a_most < b {
        return words::boolean(true);
    }
    if b_most <= a {
        return words::boolean(false);
    }
    words::undecided()
}

// Sum, difference or less of two words of intervals.
fn operate_intervals(kind: u8, a: u64, b: u64) -> u64
    ensures { result ≡ interval_result kind (payload_of a) (env_of a) (payload_of b) (env_of b) }
{
    let x = words::payload(a);
    let x_most = words::env(a);
    let y = words::payload(b);
    let y_most = words::env(b);
    if kind == 11 {
        return words::interval(x.saturating_add(y), x_most.saturating_add(y_most));
    }
    if kind == 12 {
        return words::interval(x.saturating_sub(y_most), x_most.saturating_sub(y));
    }
    less(x, x_most, y, y_most)
}

// Sum, difference or less of two words.
pub fn operate(counters: &mut Counters, kind: u8, t: u16, a: u64, b: u64) -> u64
    ensures { Operated kind t a b counters.old result counters.new }
{
    if words::sort(a) != 1 {
        return words::stop(18, t);
    }
    if words::sort(b) != 1 {
        return words::stop(18, t);
    }
    if counters.mode.intervals {
        return operate_intervals(kind, a, b);
    }
    let x = words::payload(a);
    let y = words::payload(b);
    if kind == 11 {
        if y <= MAX_NUMBER - x {
            return words::number(x + y);
        }
        return saturate(counters, MAX_NUMBER);
    }
    if kind == 12 {
        if y <= x {
            return words::number(x - y);
        }
        return saturate(counters, 0);
    }
    words::boolean(x < y)
}

// Whether the guard in the word x passes, for a number: there is none, or a check of it goes on. A decision is noted.
fn guard_passes(
    frames: &mut [u32],
    noted: &mut [u8],
    counters: &mut Counters,
    t: u16,
    x: u64,
    access: u64,
) -> bool
    requires { is_guard (word_guard x) ≡ true }
    ensures { Guarded t x access counters.old frames.old noted.old result counters.new frames.new
        noted.new }
{
    let guard = guard_of(x);
    if guard == NO_GUARD {
        return true;
    }
    let enforce = counters.mode.enforce;
    if !enforce {
        return true;
    }
    let yes = granted(frames, counters.mode.lazy, access, guard);
    note(noted, counters, t, guard, yes);
    yes
}

// Why a number is not posted: the guard, then 22. It is 0 if the number is posted, as in the definition that the promises of a post cite.
fn cause_of(passes: bool, room: bool) -> u16
    ensures { result ≡ cause_of true passes room }
{
    choose(passes, choose(room, 0, 22), 17)
}

// The two halves of a post as the list has it.
fn entry(high: u16, low: u16) -> u32
    ensures { result ≡ entry_of high low }
{
    (high as u32) * 65536 + (low as u32)
}

// A post of the word w, by the word x of its term: its channel and number, or the interval.
fn listed(intervals: bool, x: u64, w: u64) -> u32
    ensures { result ≡ listed_as intervals x w }
{
    if intervals {
        return entry(words::payload(w), words::env(w));
    }
    entry(small_of(x) as u16, words::payload(w))
}

// Appends a number to the posts, by the word x of the post.
pub fn append(
    posts: &mut [u32],
    frames: &mut [u32],
    noted: &mut [u8],
    counters: &mut Counters,
    t: u16,
    x: u64,
    access: u64,
    w: u64,
) -> u64
    requires { is_guard (word_guard x) ≡ true }
    ensures { PostAppended t x access w counters.old posts.old frames.old noted.old result counters.new
        posts.new frames.new noted.new }
{
    if words::sort(w) != 1 {
        return words::stop(18, t);
    }
    let at = counters.posts;
    let passes = guard_passes(frames, noted, counters, t, x, access);
    let cause = cause_of(passes, at < posts.len());
    if cause != 0 {
        return words::stop(cause as u8, t);
    }
    posts[at] = listed(counters.mode.intervals, x, w);
    counters.posts = at + 1;
    w
}
