// Guards: refusal 31.
ghost use Rattle.std.specs.Prelude.{◌≡◌};
ghost use Rattle.program.specs.Limits.{max_channels};
ghost use Rattle.program.specs.Screening.{lowest};
ghost use Rattle.program.specs.Decoding.{guard_ok};
ghost use Rattle.accessors.specs.Internal.{Laid};
ghost use Rattle.program.specs.Search.{found_model};

use accessors::guard;
use program::limits::{MAX_CHANNELS, MAX_PRIVILEGE, NO_GUARD};
use program::records::Counts;

// The lowest channel whose guard is neither a privilege nor none. A sheet of version 1 has no guards, so that none is found.
pub fn bad_guard(s: &[u8], c: Counts) -> Option<u16>
    requires { Laid s.now c }
    ensures { found_model result ≡ lowest (guard_ok s.now) 0 max_channels }
{
    let channel = (0..MAX_CHANNELS).find(|&channel| {
        let g = guard(s, c, channel);
        g > MAX_PRIVILEGE && g != NO_GUARD
    })?;
    Some(u16::from(channel))
}
