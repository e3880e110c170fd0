// The cell store: eight bytes a cell, counted from 1, of a word's sort, payload and environment and the cell behind it. A cell that is not whole in
// the store reads as zeros.
ghost use Rattle.std.specs.Prelude.{◌≡◌, ◌+◌, ◌*◌, ◌<◌, ◌≤◌, length};
ghost use Rattle.program.specs.Bytes.{word16, with_word16};
ghost use Rattle.stores.specs.Cells.{behind_of, walk_of, cell_word, look_of, cell_set, next_cell, BindsCell, zeros_like};
ghost use Rattle.stores.specs.Returns.{Returned};

use crate::words;

// As accessors::be16: a crate for both would hold this line alone.
fn get16(s: &[u8], i: usize) -> u16
    requires { i + 1 < length s.now }
    ensures { result ≡ word16 s.now i }
{
    u16::from_be_bytes([s[i], s[i + 1]])
}

fn put16(s: &mut [u8], i: usize, n: u16)
    requires { i + 1 < length s.old }
    ensures { s.new ≡ with_word16 s.old i n }
{
    let [high, low] = n.to_be_bytes();
    s[i] = high;
    s[i + 1] = low;
}

// The cell behind cell e.
fn behind(cells: &[u8], e: u16) -> u16
    ensures { result ≡ behind_of cells.now e }
{
    if e == 0 {
        return 0;
    }
    let end = (e as usize) * 8;
    if cells.len() < end {
        return 0;
    }
    get16(cells, end - 3)
}

// The word in cell e.
fn cell_word(cells: &[u8], e: u16) -> u64
    requires { 0 < e }
    ensures { result ≡ cell_word cells.now e }
{
    let end = (e as usize) * 8;
    if cells.len() < end {
        return 0;
    }
    (cells[end - 8] as u64)
        + 65536 * (get16(cells, end - 7) as u64)
        + 4294967296 * (get16(cells, end - 5) as u64)
}

// The cell that k steps lead to.
fn walk(cells: &[u8], env: u16, k: u16) -> u16
    ensures { result ≡ walk_of cells.now env k }
{
    let mut e = env;
    for _ in 0..k {
        e = behind(cells, e);
    }
    e
}

// The value of the variable t that is k bindings away.
pub fn look(cells: &mut [u8], t: u16, env: u16, k: u16) -> u64
    ensures { Returned result (look_of cells.old t env k) cells.new cells.old }
{
    let e = walk(cells, env, k);
    if e == 0 {
        return words::stop(18, t);
    }
    cell_word(cells, e)
}

// Cell number i, from 0, gets a word and the cell behind it.
fn put_cell(cells: &mut [u8], i: usize, w: u64, behind: u16)
    requires { i * 8 + 8 ≤ length cells.old }
    ensures { cells.new ≡ cell_set cells.old i w behind }
{
    let at = i * 8;
    cells[at] = (words::sort(w) % 256) as u8;
    put16(cells, at + 1, words::payload(w));
    put16(cells, at + 3, words::env(w));
    put16(cells, at + 5, behind);
}

// The number of the cell after so many.
pub fn next_cell(made: usize) -> u16
    ensures { result ≡ next_cell made }
{
    ((made % 65536 + 1) % 65536) as u16
}

// Gives the next cell a word and the cell behind it, and says how many are made then. If the store has none, it is 0, and nothing is written.
pub fn bind(cells: &mut [u8], made: usize, w: u64, behind: u16) -> usize
    ensures { BindsCell made w behind cells.old result cells.new }
{
    if cells.len() / 8 <= made {
        return 0;
    }
    put_cell(cells, made, w, behind);
    made + 1
}

// All bytes are zero. The theorem on what a run leaves in the cells cites this clause.
pub fn clear(a: &mut [u8])
    ensures { a.new ≡ zeros_like a.old }
{
    a.fill(0);
}
