// The lines that are compared with the recorded ones. A write that fails is passed over.

fn word(rt: &impl Print, x: u32) {
    let _ = rt.write_all(b" ");
    let _ = rt.print(x);
}

// A name, a status and the numbers of an answer.
fn answer(rt: &impl Print, name: &[u8], status: u32, numbers: &[u32]) {
    let _ = rt.write_all(name);
    word(rt, status);
    for &x in numbers {
        word(rt, x);
    }
}

pub fn line(rt: &impl Print, name: &[u8], status: u32, numbers: &[u32]) {
    answer(rt, name, status, numbers);
    let _ = rt.write_all(b"\n");
}

// The same, with the sum of the buffers.
pub fn run_line(rt: &impl Print, name: &[u8], status: u32, numbers: &[u32], sum: u32) {
    answer(rt, name, status, numbers);
    word(rt, sum);
    let _ = rt.write_all(b"\n");
}
