// The pass over all terms of a sheet that finds the smallest one that is refused where it stands. The crate `piece` begins it at the root.
#![tactic(auto)]

pub mod candidates;
mod judgement;
pub mod visit;
