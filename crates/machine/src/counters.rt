// The counters of a run.
use access::Mode;

// What a run counts, and its mode. It is handed on by reference, and never copied.
#[derive(Drop)]
pub struct Counters {
    pub calls_left: usize,
    pub cells: usize,
    pub posts: usize,
    pub mode: Mode,
    pub saturated: usize,
    pub entries: usize,
}
