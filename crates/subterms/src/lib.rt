// The terms of a sheet where they stand: what is answered about the smallest faulty one, and about one of them. The definitions and the theorems about them
// are in specs/; of functions only the conversions of the refusals stand here.
#![tactic(auto)]

pub mod answer;
