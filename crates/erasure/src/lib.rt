// The lean sheet: what erasure answers. The definition over the bytes and the theorems about it are in specs/; of functions only the
// conversions of the refusals stand here.
#![tactic(auto)]

pub mod answer;
