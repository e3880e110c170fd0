// What a report answers. specs/Reports.antt has what each case says of the text and of the buffers.

// Why no text was written: it is this long and found no place, or the buffers lent are not the largest.
#[derive(Clone, Copy)]
pub enum Undelivered {
    TooShort(usize),
    Unfit,
}
