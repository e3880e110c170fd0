// The bytes of a sheet: what its records hold, and what the decoder answers. The definitions are in specs/; no function stands here.
#![tactic(auto)]

pub mod answer;
pub mod limits;
pub mod records;
