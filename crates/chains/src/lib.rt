// Why a sheet needs a privilege (W7): the chain of terms from the root to a cause. The definitions and theorems are in specs/; of functions
// only the conversions of the refusals stand here.
#![tactic(auto)]

pub mod answer;
