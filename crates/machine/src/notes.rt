// The record of a run: four bytes for each check, test and guard that it decides.
ghost use Rattle.std.specs.Prelude.{◌≡◌, ◌+◌, ◌≤◌, length};
ghost use Rattle.program.specs.Bytes.{overwrite};
ghost use Rattle.traces.specs.Traces.{event_bytes};
ghost use Rattle.machine.specs.Steps.{decided_event, Noted};

use crate::counters::Counters;

// The entry at a place: the term, highest byte first, the privilege, and 1 for yes or 0 for no.
fn put_entry(noted: &mut [u8], at: usize, t: u16, p: u8, yes: bool)
    requires { at + 4 ≤ length noted.old }
    ensures { noted.new ≡ overwrite noted.old at (event_bytes (decided_event t p yes)) }
{
    noted[at] = (t / 256) as u8;
    noted[at + 1] = (t % 256) as u8;
    noted[at + 2] = p;
    noted[at + 3] = yes as u8;
}

// Notes what is decided on privilege p at term t. A full record takes no more.
pub fn note(noted: &mut [u8], counters: &mut Counters, t: u16, p: u8, yes: bool)
    ensures { Noted (decided_event t p yes) counters.old noted.old counters.new noted.new }
{
    let made = counters.entries;
    if made < noted.len() / 4 {
        put_entry(noted, 4 * made, t, p, yes);
        counters.entries = made + 1;
    }
}
