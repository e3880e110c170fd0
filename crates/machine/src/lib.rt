// The steps of a run that evaluate no other term, and the record of what they decide.
#![tactic(auto)]

pub mod counters;
pub mod notes;
pub mod steps;
pub mod tail;
