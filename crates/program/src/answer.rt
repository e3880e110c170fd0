// Why the decoder refuses a sheet.

// A cause for each of the paper's numbers 1 to 8, in this order, and 31; the number held is that of the record or channel at fault.
#[derive(Clone, Copy)]
pub enum Refusal {
    CutShort,
    Tag,
    Version,
    Length,
    BadType(u16),
    BadTerm(u16),
    BadPlace(u16),
    TooDeep(u16),
    BadGuard(u16),
}
