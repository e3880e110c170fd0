// What a sheet's records hold. The crate `accessors` reads them.

// How many principals, types, terms and channels a sheet has. They fix where each record and each guard lies.
#[derive(Clone, Copy)]
pub struct Counts {
    pub principals: u8,
    pub types: u16,
    pub terms: u16,
    pub channels: u8,
}

#[derive(Clone, Copy)]
pub struct TermRecord {
    pub kind: u8,
    pub small: u8,
    pub first: u16,
    pub second: u16,
    pub third: u16,
}

#[derive(Clone, Copy)]
pub struct TypeRecord {
    pub kind: u8,
    pub zero: u8,
    pub arg: u16,
    pub res: u16,
    pub latent: u32,
}
