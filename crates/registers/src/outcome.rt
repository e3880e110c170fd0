// What a run's answer puts into the registers.
ghost use Rattle.std.specs.Prelude.{◌≡◌, ◌≤◌};
ghost use Rattle.program.specs.Limits.{max_calls};
ghost use Rattle.semantics.specs.Runs.{ran};
ghost use Rattle.interp.specs.Answers.{outcome_model, counts_model, run_model};
ghost use Rattle.blocks.specs.Block.{registers_of};
ghost use Rattle.blocks.specs.Internal.{registers_model};
ghost use Rattle.registers.specs.Internal.{end_registers, FewCalls};

use blocks::block::RunRegisters;
use interp::answer::{Ground, Run, RunCounts};
use numbers::Code;
use stores::values::Stop;

fn ended(value: u16, calls: u16) -> RunRegisters
    ensures { registers_model result ≡ end_registers value calls }
{
    RunRegisters {
        flag: 1,
        cause: 0,
        value: value,
        calls: calls,
        place: 0,
    }
}

fn of_outcome(o: Result<Ground, Stop>, m: RunCounts) -> RunRegisters
    requires { m.calls ≤ max_calls }
    ensures { registers_model result ≡ registers_of (ran (outcome_model o) (counts_model m)) }
{
    let calls = m.calls as u16;
    match o {
        Err(x) => {
            let c = Code::from(x);
            RunRegisters {
                flag: 2,
                cause: c.cause,
                value: 0,
                calls: calls,
                place: c.place,
            }
        }
        Ok(Ground::Bool(b)) => ended(b as u16, calls),
        Ok(Ground::Num(n)) => ended(n, calls),
    }
}

pub fn of_run(x: Run) -> RunRegisters
    requires { FewCalls x }
    ensures { registers_model result ≡ registers_of (run_model x) }
{
    match x {
        Err(f) => {
            let c = Code::from(f);
            RunRegisters {
                flag: 4,
                cause: c.cause,
                value: 0,
                calls: 0,
                place: c.place,
            }
        }
        Ok(ran) => of_outcome(ran.outcome, ran.made),
    }
}
