// Sets of privileges as u32 masks: bit k, worth 2^k, stands for privilege k, 0 to 31.
// The other crates of the unit call these functions; a privilege above 31 cannot be passed to them.
#![tactic(auto)]

ghost use Rattle.std.specs.Prelude.{◌≡◌, ◌<◌};
ghost use Rattle.privileges.specs.Sets.{privilege_count, has, meet as meet_of, union as union_of, insert as insert_of, remove as remove_of, subset as subset_of};

// Whether privilege p is in the set m.
pub fn contains(p: u8, m: u32) -> bool
    requires { p < privilege_count }
    ensures { result ≡ has p m }
{
    (m >> p) & 1 == 1
}

// What a and b have in common.
pub fn meet(a: u32, b: u32) -> u32
    ensures { result ≡ meet_of a b }
{
    a & b
}

// What a or b has.
pub fn union(a: u32, b: u32) -> u32
    ensures { result ≡ union_of a b }
{
    a | b
}

// The set m with privilege p.
pub fn insert(p: u8, m: u32) -> u32
    requires { p < privilege_count }
    ensures { result ≡ insert_of p m }
{
    m | (1u32 << p)
}

// The set m without privilege p.
pub fn remove(p: u8, m: u32) -> u32
    requires { p < privilege_count }
    ensures { result ≡ remove_of p m }
{
    m & !(1u32 << p)
}

// Whether every privilege of a is in b.
pub fn subset(a: u32, b: u32) -> bool
    ensures { result ≡ subset_of a b }
{
    (a & b) == a
}
