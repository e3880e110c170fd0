// What the type checker answers. The rules and the algorithm that decides them are in specs/; of functions only the conversions of the refusals stand here.
#![tactic(auto)]

pub mod answer;
