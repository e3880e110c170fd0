// What holding one record against another answers: how many of the office's entries the unit lacks; or the number of the unit's first entry up to which its
// entries do not occur in the office's.
#[derive(Clone, Copy)]
pub enum Comparison {
    Fits(usize),
    Diverges(usize),
}

// 34: one of the two is no record.
#[derive(Clone, Copy)]
pub struct Malformed;
