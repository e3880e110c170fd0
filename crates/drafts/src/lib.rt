// The text of a sheet, put together piece by piece and line by line.
#![tactic(auto)]

pub mod draft;
pub mod lines;
