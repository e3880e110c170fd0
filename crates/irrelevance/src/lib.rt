// A privilege that plays no part: what is told of a sheet and a privilege. The definition and the theorem about two runs are in specs/; of
// functions only the conversion of the refusal stands here.
#![tactic(auto)]

pub mod answer;
