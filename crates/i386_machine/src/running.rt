// Runs of the machine over a source and a sink.
ghost use Rattle.std.specs.Prelude.{◌≡◌};
ghost use Rattle.i386_machine.specs.Regions.{shapes};
ghost use Rattle.i386_machine.specs.Runs.{Runs};
ghost use Rattle.i386_machine.specs.Turns.{Turns};

use crate::event::RunEnd;
use crate::machine::{Machine, Pending};
use cc_base::{GiveFault, Sink, Source};

// One step, or the end of the run.
fn turn<S: Source, O: Sink>(
    machine: &mut Machine,
    input: &mut S,
    output: &mut O,
) -> Result<(), RunEnd>
    ensures { Turns machine.old (S.seen input.old) (O.seen output.old) result machine.new (S.seen input.new) (O.seen output.new) }
{
    match machine.advance() {
        Pending::Nothing => Ok(()),
        Pending::Byte => match input.next() {
            Ok(next) => {
                machine.take(next);
                Ok(())
            }
            Err(_) => Err(RunEnd::Read),
        },
        Pending::Give(byte) => match output.give(byte) {
            Ok(()) => {
                machine.gave(byte);
                Ok(())
            }
            Err(GiveFault::Failed) => Err(RunEnd::Write),
            Err(GiveFault::Memory) => Err(RunEnd::Memory),
        },
        Pending::End(status) => {
            machine.end(status);
            Err(RunEnd::Ended(status))
        }
        Pending::Stick(cause) => {
            machine.stick(cause);
            Err(RunEnd::Stuck {
                eip: machine.eip(),
                cause,
            })
        }
    }
}

/// Runs a machine for so many steps at most. A byte that was emitted is given to the sink before the next step. Read
/// and Write come only where the source or the sink failed, and Memory only where the sink wanted memory: then the
/// machine is as it was before that step. Over a source that tells its bytes the steps are those on these bytes, and over
/// another those on some input, unless it gave a byte after it had none.
pub fn run<S: Source, O: Sink>(
    machine: &mut Machine,
    steps: u32,
    input: &mut S,
    output: &mut O,
) -> RunEnd
    ensures runs { Runs machine.old steps (S.seen input.old) (O.seen output.old) result machine.new (S.seen input.new) (O.seen output.new) }
    // Regions keep their places, lengths and rights.
    ensures shape { shapes machine.new.regions ≡ shapes machine.old.regions }
{
    for count in 0..steps {
        if let Err(end) = turn(machine, input, output) {
            return end;
        }
    }
    machine.end_now()
}
