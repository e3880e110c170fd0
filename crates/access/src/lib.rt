// Access control, as one number. An eager run holds a pair: the set that the signing principal may use, and 2^32 times the granted set. A lazy run
// holds how many numbers of its frame store are in use, two for each frame: the set that its principal may use, and the enabled set.
#![tactic(auto)]

ghost use Rattle.std.specs.Prelude.{◌≡◌, ◌<◌, slice_index, slice_set};
ghost use Rattle.privileges.specs.Sets.{privilege_count};
ghost use Rattle.access.specs.Access.{packed, low_of, high_of, frames_grant, granted_of, sign_access, sign_frames, first_enabled, enable_access, enable_frames, enabled_now, restore_frames};
ghost use Rattle.stores.specs.Cells.{zeros_like};
ghost use Rattle.stores.specs.Returns.{Returned};

// How a run goes: whether it walks frames or holds a granted set, whether its checks are in force, and whether its numbers are intervals. What a
// step asks for is handed on as a flag of its own, which stays in a register.
#[derive(Clone, Copy)]
pub struct Mode {
    pub lazy: bool,
    pub enforce: bool,
    pub intervals: bool,
}

fn number_at(f: &[u32], i: usize) -> u32
    ensures { result ≡ slice_index f.now i }
{
    if i < f.len() { f[i] } else { 0 }
}

fn put_number(f: &mut [u32], i: usize, v: u32)
    ensures { f.new ≡ slice_set f.old i v }
{
    if i < f.len() {
        f[i] = v;
    }
}

pub fn pair(low: u32, high: u32) -> u64
    ensures { result ≡ packed low high }
{
    (low as u64) + 4294967296 * (high as u64)
}

fn low(access: u64) -> u32
    ensures { result ≡ low_of access }
{
    (access % 4294967296) as u32
}

fn high(access: u64) -> u32
    ensures { result ≡ high_of access }
{
    (access / 4294967296) as u32
}

// Whether the frames in the first `used` numbers grant p, the last of them being the innermost. One test stands for all indexes. The index goes down by
// two by hand, since a range that goes down a frame at a time would leave the last number of an odd count, where the walk leaves the first.
fn frames_grant(frames: &[u32], used: u32, p: u8) -> bool
    requires { p < privilege_count }
    ensures { result ≡ frames_grant frames.now used p }
{
    let mut d = used as usize;
    if frames.len() < d {
        return false;
    }
    while 1 < d {
        d -= 2;
        if !privileges::contains(p, frames[d]) {
            return false;
        }
        if privileges::contains(p, frames[d + 1]) {
            return true;
        }
    }
    false
}

// Whether p is granted.
pub fn granted(frames: &mut [u32], lazy: bool, access: u64, p: u8) -> bool
    requires { p < privilege_count }
    ensures { Returned result (granted_of lazy access frames.old p) frames.new frames.old }
{
    if lazy {
        return frames_grant(frames, low(access), p);
    }
    privileges::contains(p, high(access))
}

// Where the first frame has its enabled set. With no frame it wraps to the largest index, which is past every store: 0 is read there and nothing
// written.
fn first_enabled(access: u64) -> usize
    ensures { result ≡ first_enabled access }
{
    (low(access) as usize).wrapping_sub(1)
}

// What a sign by a principal that may use the set `authorised` makes of the access and of the frames.
pub fn sign(frames: &mut [u32], lazy: bool, access: u64, authorised: u32) -> u64
    ensures { Returned result (sign_access lazy access authorised) frames.new (sign_frames lazy access frames.old authorised) }
{
    if lazy {
        let at = low(access) as usize;
        put_number(frames, at, authorised);
        put_number(frames, at + 1, 0);
        return (at + 2) as u64;
    }
    pair(authorised, privileges::meet(high(access), authorised))
}

// What an enable makes of the access and of the frames.
pub fn enable(frames: &mut [u32], lazy: bool, access: u64, p: u8) -> u64
    requires { p < privilege_count }
    ensures { Returned result (enable_access lazy access p) frames.new (enable_frames lazy access frames.old p) }
{
    if lazy {
        let at = first_enabled(access);
        put_number(frames, at, privileges::insert(p, number_at(frames, at)));
        return access;
    }
    let authorised = low(access);
    if privileges::contains(p, authorised) {
        return pair(authorised, privileges::insert(p, high(access)));
    }
    access
}

// The enabled set of the first frame, to be restored when an enable ends.
pub fn enabled_now(frames: &mut [u32], lazy: bool, access: u64) -> u32
    ensures { Returned result (enabled_now lazy access frames.old) frames.new frames.old }
{
    if lazy {
        return number_at(frames, first_enabled(access));
    }
    0
}

// Restores the first frame's enabled set.
pub fn restore(frames: &mut [u32], lazy: bool, access: u64, old: u32)
    ensures { frames.new ≡ restore_frames lazy access frames.old old }
{
    if lazy {
        put_number(frames, first_enabled(access), old);
    }
}

// All numbers are zero. The theorem on what a lazy run leaves in the frames cites this clause.
pub fn clear_frames(a: &mut [u32])
    ensures { a.new ≡ zeros_like a.old }
{
    a.fill(0);
}
