// Subtyping in proved code: whether one type is a subtype of another, the wider of two types, and what is known of pairs of types.
#![tactic(auto)]

pub mod known;
pub mod subtypes;
