// Which types and terms of a sheet a lean one keeps, and the numbers that they have there.
#![tactic(auto)]

pub mod numbers;
pub mod terms;
pub mod types;
