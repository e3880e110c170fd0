// The bytes of a lean sheet, from the sheet and the new numbers of its types and terms.
#![tactic(auto)]

mod records;
pub mod write;
