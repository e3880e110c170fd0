// Each kind's rule once its children are judged, in proved code: the bindings around a term, and the judgement of a term from those of its children. The
// crate `checker` walks the terms.
#![tactic(auto)]

pub mod bindings;
pub mod steps;
