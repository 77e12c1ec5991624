// Runs over a source and a sink.
ghost use Rattle.std.specs.Prelude.{◌≡◌, ◌+◌, ◌≤◌, ◌<◌, ◌^◌};
ghost use Rattle.mean_run.specs.Processes.{linked_of, world_of};
ghost use Rattle.mean_run.specs.Running.{end_of, Steps, Runs};

use crate::process::{Final, Pending, Process};
use crate::program::Program;
use block_mem::Value;
use cc_base::{GiveFault, Sink, Source};

/// How a run stands after so many turns. Wrong and Deep name the least number of turns after which it stood so.
#[derive(Clone, Copy, Debug, PartialEq, Eq)]
pub enum MeanEnd {
    Ended(u8),
    Spent,
    Wrong { turn: u32 },
    Deep { turn: u32 },
}

/// Why a run was cut off.
#[derive(Clone, Copy, Debug, PartialEq, Eq)]
pub enum RunFault {
    /// The source failed.
    Read,
    /// The sink failed.
    Write,
    /// There was not enough memory.
    Memory,
}

// One turn over the outside: how the run is over, if it is.
fn step<'u, S: Source, O: Sink>(
    process: &mut Process<'u>,
    program: &Program<'u>,
    input: &mut S,
    output: &mut O,
) -> Result<Option<Final>, RunFault>
    requires few { process.old.calls < 2 ^ 63 }
    ensures turn { Steps (linked_of program.now) (world_of process.old) (S.seen input.old) (O.seen output.old) result (world_of process.new) (S.seen input.new) (O.seen output.new) }
    ensures calls { process.new.calls ≤ process.old.calls + 1 }
{
    let Ok(pending) = process.turn(program) else {
        return Err(RunFault::Memory);
    };
    match pending {
        Pending::Nothing => Ok(None),
        Pending::End(how) => Ok(Some(how)),
        Pending::Give(byte) => match output.give(byte) {
            Ok(()) => Ok(None),
            Err(GiveFault::Failed) => Err(RunFault::Write),
            Err(GiveFault::Memory) => Err(RunFault::Memory),
        },
        Pending::Byte(destination) => match input.next() {
            Err(_) => Err(RunFault::Read),
            Ok(None) => Ok(None),
            Ok(Some(byte)) => {
                if process.give(&destination, Value::Int(u32::from(byte))) {
                    Ok(None)
                } else {
                    Ok(Some(Final::Wrong))
                }
            }
        },
    }
}

// The end of a run that is over after so many turns.
fn end(how: Final, turn: u32) -> MeanEnd
    ensures { result ≡ end_of how turn }
{
    match how {
        Final::Ended(status) => MeanEnd::Ended(status),
        Final::Wrong => MeanEnd::Wrong { turn },
        Final::Deep => MeanEnd::Deep { turn },
    }
}

/// Runs a process for so many turns at most. A byte that was emitted is given to the sink before the next turn. After
/// Spent the process stands where its run goes on.
pub fn run<'u, S: Source, O: Sink>(
    process: &mut Process<'u>,
    program: &Program<'u>,
    turns: u32,
    input: &mut S,
    output: &mut O,
) -> Result<MeanEnd, RunFault>
    requires few { process.old.calls < 2 ^ 62 }
    ensures { Runs (linked_of program.now) turns (world_of process.old) (S.seen input.old) (O.seen output.old) result (world_of process.new) (S.seen input.new) (O.seen output.new) }
{
    for count in 0..turns {
        match step(process, program, input, output) {
            Err(fault) => return Err(fault),
            Ok(Some(how)) => return Ok(end(how, count + 1)),
            Ok(None) => {}
        }
    }
    Ok(MeanEnd::Spent)
}
