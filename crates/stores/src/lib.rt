// What a run holds: words, and the cells of lent bytes that keep them.
#![tactic(auto)]

pub mod cells;
pub mod values;
pub mod words;
