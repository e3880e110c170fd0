// The chain from the root of a sheet to the cause of a need, term by term.
#![tactic(auto)]

pub mod causes;
pub mod chain;
