// Runs the recorded sheets of its standard input through the functions that the entries for C hand on to, and prints every answer in numbers.
// reference/record writes that input, and the expected output beside it from an implementation of its own.
#![tactic(auto)]

use replies::{ANSWER_NUMBERS, LONG_ANSWER};
use std::io::Read;
use vector_io::buffers::{
    PAIR_ROOM, cell_buffer, fill_all, fill_cells, fill_numbers, frame_buffer, mix, mix_all,
    pair_buffer, post_buffer, sheet_buffer, start_buffer,
};
use vector_io::input::{Vector, read_pairs, read_start, read_vector};
use vector_io::output::{line, run_line};

// What is told without a run; of a piece also the sum of the bytes that are handed back.
fn judgements(rt: &impl Print, sheet: &[u8], term: u32) {
    let mut answer = [0u32; ANSWER_NUMBERS];
    let r = capi_base::decode(sheet, &mut answer);
    line(rt, b"decode", r, &answer);
    let r2 = capi_base::typecheck(sheet, &mut answer);
    line(rt, b"typecheck", r2, &answer);
    let r3 = capi_piece::piece(sheet, &mut answer);
    let h = mix(0, piece::record_of(sheet));
    run_line(rt, b"piece", r3, &answer, h);
    let r4 = capi_term::term(sheet, term, &mut answer);
    line(rt, b"term", r4, &answer);
}

// What each run of a vector is asked for.
#[derive(Clone, Copy)]
struct Request<'a> {
    sheet: &'a [u8],
    start: &'a [u32],
    calls: u32,
    depth: u32,
}

// An eager run on filled buffers of the lengths asked for. Each entry for C has a function here: they differ in the entry and in what it is lent.
fn eager(
    rt: &impl Print,
    name: &[u8],
    q: Request<'_>,
    enforce: u32,
    cells: &mut [u8],
    posts: &mut [u32],
) {
    fill_cells(cells);
    fill_numbers(posts, 2, 3);
    let mut answer = [0u32; ANSWER_NUMBERS];
    let r = capi_base::eager(
        q.sheet,
        q.start,
        q.calls,
        q.depth,
        enforce,
        cells,
        posts,
        &mut answer,
    );
    let h = mix(mix(0, cells), posts);
    run_line(rt, name, r, &answer, h);
}

// A lazy one.
fn lazy(
    rt: &impl Print,
    name: &[u8],
    q: Request<'_>,
    enforce: u32,
    cells: &mut [u8],
    posts: &mut [u32],
    frames: &mut [u32],
) {
    fill_all(cells, posts, frames);
    let mut answer = [0u32; ANSWER_NUMBERS];
    let r = capi_base::lazy(
        q.sheet,
        q.start,
        q.calls,
        q.depth,
        enforce,
        cells,
        posts,
        frames,
        &mut answer,
    );
    let h = mix_all(cells, posts, frames);
    run_line(rt, name, r, &answer, h);
}

// The same runs with a record of ten entries and a half.
fn record_eager(
    rt: &impl Print,
    name: &[u8],
    q: Request<'_>,
    enforce: u32,
    cells: &mut [u8],
    posts: &mut [u32],
) {
    fill_cells(cells);
    fill_numbers(posts, 2, 3);
    let mut noted = [6u8; 42];
    let mut answer = [0u32; LONG_ANSWER];
    let r = capi_record::eager(
        q.sheet,
        q.start,
        q.calls,
        q.depth,
        enforce,
        cells,
        posts,
        &mut noted,
        &mut answer,
    );
    let h = mix(mix(mix(0, cells), posts), &noted);
    run_line(rt, name, r, &answer, h);
}

fn record_lazy(
    rt: &impl Print,
    name: &[u8],
    q: Request<'_>,
    enforce: u32,
    cells: &mut [u8],
    posts: &mut [u32],
    frames: &mut [u32],
) {
    fill_all(cells, posts, frames);
    let mut noted = [6u8; 42];
    let mut answer = [0u32; LONG_ANSWER];
    let r = capi_record::lazy(
        q.sheet,
        q.start,
        q.calls,
        q.depth,
        enforce,
        cells,
        posts,
        frames,
        &mut noted,
        &mut answer,
    );
    let h = mix(mix_all(cells, posts, frames), &noted);
    run_line(rt, name, r, &answer, h);
}

// An eager run over ranges.
fn ranging(
    rt: &impl Print,
    name: &[u8],
    q: Request<'_>,
    pairs: &[u16],
    enforce: u32,
    cells: &mut [u8],
    posts: &mut [u32],
) {
    fill_cells(cells);
    fill_numbers(posts, 2, 3);
    let mut answer = [0u32; ANSWER_NUMBERS];
    let r = capi_ranges::ranges(
        q.sheet,
        pairs,
        q.start,
        q.calls,
        q.depth,
        enforce,
        cells,
        posts,
        &mut answer,
    );
    let h = mix(mix(0, cells), posts);
    run_line(rt, name, r, &answer, h);
}

// Both ways to treat checks: in force, then passed over.
fn eagers(rt: &impl Print, q: Request<'_>, cells: &mut [u8], posts: &mut [u32]) {
    eager(rt, b"eager", q, 1, cells, posts);
    eager(rt, b"eager-skip", q, 0, cells, posts);
    record_eager(rt, b"eager-record", q, 1, cells, posts);
    record_eager(rt, b"eager-record-skip", q, 0, cells, posts);
}

fn lazies(
    rt: &impl Print,
    q: Request<'_>,
    cells: &mut [u8],
    posts: &mut [u32],
    frames: &mut [u32],
) {
    lazy(rt, b"lazy", q, 1, cells, posts, frames);
    lazy(rt, b"lazy-skip", q, 0, cells, posts, frames);
    record_lazy(rt, b"lazy-record", q, 1, cells, posts, frames);
    record_lazy(rt, b"lazy-record-skip", q, 0, cells, posts, frames);
}

// The same over ranges, by the pairs that the input has next, on a part of the largest list.
fn over_intervals(
    rt: &impl Print,
    input: &mut impl Read,
    numbers: usize,
    q: Request<'_>,
    cells: &mut [u8],
    posts: &mut [u32],
) {
    let mut room = pair_buffer();
    let used = numbers.min(PAIR_ROOM);
    let pairs = &mut room[..used];
    read_pairs(input, pairs);
    ranging(rt, b"ranges", q, pairs, 1, cells, posts);
    ranging(rt, b"ranges-skip", q, pairs, 0, cells, posts);
}

// One vector, on buffers of the lengths that it asks for.
fn vector(
    rt: &impl Print,
    input: &mut impl Read,
    v: Vector,
    start: &mut [u32],
    sheet: &mut [u8],
    cells: &mut [u8],
    posts: &mut [u32],
    frames: &mut [u32],
) {
    read_start(input, start);
    let _ = input.read_exact(sheet);
    judgements(rt, sheet, v.term);
    let q = Request {
        sheet,
        start,
        calls: v.calls,
        depth: v.depth,
    };
    eagers(rt, q, cells, posts);
    lazies(rt, q, cells, posts, frames);
    over_intervals(rt, input, v.pairs, q, cells, posts);
}

// The next vector, on parts of the largest buffers; false at the end of the input.
fn next(
    rt: &impl Print,
    input: &mut impl Read,
    start: &mut [u32],
    sheet: &mut [u8],
    cells: &mut [u8],
    posts: &mut [u32],
    frames: &mut [u32],
) -> bool {
    let Ok(v) = read_vector(
        input,
        start.len(),
        sheet.len(),
        cells.len(),
        posts.len(),
        frames.len(),
    ) else {
        return false;
    };
    let numbers = v.start;
    let bytes = v.sheet;
    let cell_bytes = v.cells;
    let post_places = v.posts;
    let frame_numbers = v.frames;
    vector(
        rt,
        input,
        v,
        &mut start[..numbers],
        &mut sheet[..bytes],
        &mut cells[..cell_bytes],
        &mut posts[..post_places],
        &mut frames[..frame_numbers],
    );
    true
}

fn one(rt: &impl Print, input: &mut impl Read) -> bool {
    let mut start = start_buffer();
    let mut sheet = sheet_buffer();
    let mut cells = cell_buffer();
    let mut posts = post_buffer();
    let mut frames = frame_buffer();
    next(
        rt,
        input,
        &mut start,
        &mut sheet,
        &mut cells,
        &mut posts,
        &mut frames,
    )
}

// More vectors than are recorded.
const MAX_VECTORS: u64 = 65536;

// The turns are counted, since nothing says that the input ends.
fn main(rt: HostRuntime) {
    let mut input = rt.reader();
    for _ in 0..MAX_VECTORS {
        if !one(&rt, &mut input) {
            break;
        }
    }
}
