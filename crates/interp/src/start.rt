// The caller's start stack: a principal and a set of enabled privileges for each frame, innermost first.
ghost use Rattle.std.specs.Prelude.{◌++◌, ◌≡◌, length, drop};
ghost use Rattle.program.specs.Records.{authority_record};
ghost use Rattle.semantics.specs.Access.{privs};
ghost use Rattle.semantics.specs.Runs.{stack, principals_known, stack_ok};
ghost use Rattle.refinement.specs.Claims.{laid_out};
ghost use Rattle.interp.specs.Internal.{Whole, StackFits, StartAccess};

use access::pair;
use program::limits::MAX_START;

// Whether every frame's principal is one of so many.
fn principals_known(start: &[u32], count: u8) -> bool
    requires { Whole start.now }
    ensures { result ≡ principals_known count (stack start.now) }
{
    for i in 0..start.len() / 2 {
        if (count as u32) <= start[2 * i] {
            return false;
        }
    }
    true
}

// Whether it is a stack of at most 16 whole frames of known principals.
pub fn stack_ok(start: &[u32], count: u8) -> bool
    ensures { result ≡ stack_ok count start.now }
{
    if MAX_START < start.len() {
        return false;
    }
    if start.len() % 2 != 0 {
        return false;
    }
    principals_known(start, count)
}

// The set that the stack grants.
pub fn start_grants(s: &[u8], start: &[u32]) -> u32
    requires { Whole start.now }
    ensures { result ≡ privs (authority_record s.now) (stack start.now) }
{
    let mut set = 0;
    for i in (0..start.len() / 2).rev() {
        let authorised = accessors::authority(s, start[2 * i]);
        set = privileges::meet(authorised, privileges::union(start[2 * i + 1], set));
    }
    set
}

// What an eager run holds at its start: the set of principal 0 and the set that the stack grants.
pub fn start_access(s: &[u8], start: &[u32]) -> u64
    requires { Whole start.now }
    ensures { StartAccess s.now start.now result }
{
    pair(accessors::authority(s, 0), start_grants(s, start))
}

// Lays the stack into the frame store, the outermost frame first: the set that each frame's principal may use, and the enabled set.
pub fn lay_frames(s: &[u8], start: &[u32], frames: &mut [u32])
    requires { StackFits start.now frames.old }
    ensures { frames.new ≡ laid_out (authority_record s.now) (stack start.now)
        ++ drop (length start.now) frames.old }
{
    for i in 0..start.len() / 2 {
        let from = start.len() - 2 * (i + 1);
        frames[2 * i] = accessors::authority(s, start[from]);
        frames[2 * i + 1] = start[from + 1];
    }
}
