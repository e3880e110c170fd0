// What evaluating a term gives, as one number, so that it is returned in a register: sort + 2^16 payload + 2^32 environment. Sorts 0, 1 and 2 are a
// boolean, a number and a function; a stop's sort is its number in the papers, 17 to 22 or 36, and its payload the term that stops. A number that is
// known within limits has its lowest value as payload and its highest in the place of the environment; a boolean that is not decided has payload 2.
ghost use Rattle.std.specs.Prelude.{◌≡◌};
ghost use Rattle.stores.specs.Words.{boolean_word, number_word, interval_word, undecided_word, function_word, stop_word, sort_of, payload_of, env_of, is_stop, out_of};

use crate::values::{Stop, Value};

pub fn boolean(b: bool) -> u64
    ensures { result ≡ boolean_word b }
{
    if b { 65536 } else { 0 }
}

pub fn number(n: u16) -> u64
    ensures { result ≡ number_word n }
{
    1 + 65536 * (n as u64)
}

pub fn interval(lowest: u16, highest: u16) -> u64
    ensures { result ≡ interval_word lowest highest }
{
    1 + 65536 * (lowest as u64) + 4294967296 * (highest as u64)
}

pub fn undecided() -> u64
    ensures { result ≡ undecided_word }
{
    65536 * 2
}

pub fn function(body: u16, env: u16) -> u64
    ensures { result ≡ function_word body env }
{
    2 + 65536 * (body as u64) + 4294967296 * (env as u64)
}

pub fn stop(cause: u8, t: u16) -> u64
    ensures { result ≡ stop_word cause t }
{
    (cause as u64) + 65536 * (t as u64)
}

pub fn sort(w: u64) -> u64
    ensures { result ≡ sort_of w }
{
    w % 65536
}

pub fn payload(w: u64) -> u16
    ensures { result ≡ payload_of w }
{
    (w / 65536 % 65536) as u16
}

pub fn env(w: u64) -> u16
    ensures { result ≡ env_of w }
{
    (w / 4294967296 % 65536) as u16
}

pub fn is_stop(w: u64) -> bool
    ensures { result ≡ is_stop w }
{
    2 < w % 65536
}

// What a word stands for: a value, or the stop in its place.
#[tactic(auto, unfolding(crate::specs::Words::out_by))]
pub fn out_of(w: u64) -> Result<Value, Stop>
    ensures { result ≡ out_of w }
{
    let n = payload(w);
    let k = sort(w);
    match k {
        0 => Ok(Value::Bool(0 < n)),
        1 => Ok(Value::Num(n)),
        2 => Ok(Value::Fun {
            body: n,
            env: env(w),
        }),
        17 => Err(Stop::Check(n)),
        18 => Err(Stop::Stuck(n)),
        19 => Err(Stop::OpenCalls(n)),
        20 => Err(Stop::Calls(n)),
        21 => Err(Stop::Cells(n)),
        22 => Err(Stop::Posts(n)),
        _ => Err(Stop::Undecided(n)),
    }
}
