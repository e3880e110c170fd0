// The new numbers of the types or terms of a sheet.

// Each one's new number, and how many are kept.
#[derive(Clone, Copy)]
pub struct Numbers<const N: usize> {
    pub numbers: [u16; N],
    pub count: u16,
}
