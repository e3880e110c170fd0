// The recorded vectors: a header of 25 bytes, the start stack's numbers, the sheet and the pairs of its number terms, every number with its highest byte
// first.
ghost use Rattle.std.specs.Prelude.{IfOk};
ghost use Rattle.vector_io.specs.Internal.{VectorFits};

use std::io::{self, Read};

// One vector's header, with lengths that the buffers at hand have. The numbers of the pairs come last, and their count is as it was read.
#[derive(Clone, Copy)]
pub struct Vector {
    pub sheet: usize,
    pub start: usize,
    pub calls: u32,
    pub depth: u32,
    pub cells: usize,
    pub posts: usize,
    pub frames: usize,
    pub term: u32,
    pub pairs: usize,
}

fn be16(high: u8, low: u8) -> usize {
    usize::from(u16::from_be_bytes([high, low]))
}

// The next vector's header; an error at the end of the input.
pub fn read_vector<R: Read>(
    input: &mut R,
    start: usize,
    sheet: usize,
    cells: usize,
    posts: usize,
    frames: usize,
) -> io::Result<Vector>
    ensures { IfOk result (λ v. VectorFits start sheet cells posts frames v) }
{
    let mut h = [0u8; 25];
    input.read_exact(&mut h)?;
    let bytes = u32::from_be_bytes([h[11], h[12], h[13], h[14]]) as usize;
    Ok(Vector {
        sheet: be16(h[0], h[1]).min(sheet),
        start: usize::from(h[2]).min(start),
        calls: u32::from_be_bytes([h[3], h[4], h[5], h[6]]),
        depth: u32::from_be_bytes([h[7], h[8], h[9], h[10]]),
        cells: bytes.min(cells),
        posts: be16(h[15], h[16]).min(posts),
        frames: be16(h[17], h[18]).min(frames),
        term: u32::from_be_bytes([h[19], h[20], h[21], h[22]]),
        pairs: be16(h[23], h[24]),
    })
}

// The numbers of the start stack.
pub fn read_start<R: Read>(input: &mut R, start: &mut [u32]) {
    for x in start.iter_mut() {
        let mut b = [0u8; 4];
        let _ = input.read_exact(&mut b);
        *x = u32::from_be_bytes(b);
    }
}

// The numbers of the pairs.
pub fn read_pairs<R: Read>(input: &mut R, pairs: &mut [u16]) {
    for x in pairs.iter_mut() {
        let mut b = [0u8; 2];
        let _ = input.read_exact(&mut b);
        *x = u16::from_be_bytes(b);
    }
}
