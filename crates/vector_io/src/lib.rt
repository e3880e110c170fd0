// What the program `vectors` reads and prints, and what the lent buffers of its runs hold.
#![tactic(auto)]

pub mod buffers;
pub mod input;
pub mod output;
