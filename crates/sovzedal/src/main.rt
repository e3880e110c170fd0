// The checking program: prints what is told of the sheet on standard input.
#![tactic(auto)]

ghost use Rattle.std.specs.Prelude.{◌≤◌, length};

use drafts::draft::DRAFT_BYTES;
use program::limits::{MAX_CELLS, MAX_POSTS, MAX_SHEET};
use report::report;
use std::io::Read;

// Writes a text to standard output. A write that fails is told on standard error.
fn print(rt: &(impl Print + Eprint), text: &[u8]) {
    if rt.write_all(text).is_err() {
        let _ = eprintln!(rt; "sovzedal: the answer could not be written");
    }
}

// Reads until the buffer is full, the input ends or a read fails, and returns how many bytes it put at the start of the buffer. A loop of its own, since
// read_exact does not tell how many bytes it read before the input ended, and read_to_end wants memory that grows.
fn read_full(input: &mut impl Read, buf: &mut [u8]) -> usize
    ensures { result ≤ length buf.new }
{
    let mut done = 0;
    while done < buf.len() {
        let Ok(n) = input.read(&mut buf[done..]) else {
            break;
        };
        if n == 0 {
            break;
        }
        done += n;
    }
    done
}

// A sheet has at most 10,913 bytes; of a longer one, one byte more is read, and the reader refuses it. A read error counts as the end of the input.
// There is always a text: the buffers are the largest, and no text is longer than 209 bytes (report/specs/Theorems.antt: always_written).
fn main(rt: HostRuntime) {
    let mut sheet = [0u8; MAX_SHEET + 1];
    let n = read_full(&mut rt.reader(), &mut sheet);
    let mut cells = [0u8; MAX_CELLS];
    let mut posts = [0u32; MAX_POSTS];
    let mut text = [0u8; DRAFT_BYTES];
    let reported = report(&sheet[..n], &mut cells, &mut posts, &mut text);
    let Ok(k) = reported else {
        return;
    };
    print(&rt, &text[..k]);
}
