// The end of every command.
ghost use Rattle.ccelf_build.specs.Ends.{Ends, Said};

use cc_base::{GiveFault, Sink};
use commands::{Answer, Status, give_all, line};
use std::alloc::Global;

// Gives the line, and flushes the report.
fn say<R: Sink>(line: &[u8], report: &mut R) -> Result<(), Status>
    ensures { Said line.now (R.seen report.old) result (R.seen report.new) }
{
    match give_all(line, report) {
        Ok(()) => {}
        Err(GiveFault::Failed) => return Err(Status::WriteFault),
        Err(GiveFault::Memory) => return Err(Status::Memory),
    }
    match report.flush() {
        Ok(()) => Ok(()),
        Err(_) => Err(Status::WriteFault),
    }
}

/// The end of a command: the output is flushed, then the line is given to the report, then that is flushed.
/// The first fault is the last thing that is done.
pub fn finish<O: Sink, R: Sink>(
    alloc: Global,
    answer: &Answer,
    output: &mut O,
    report: &mut R,
) -> Status
    ensures { Ends answer.now (O.seen output.old) (R.seen report.old) result (O.seen output.new) (R.seen report.new) }
{
    if let Err(_) = output.flush() {
        return Status::WriteFault;
    }
    let Ok(line) = line(alloc, answer) else {
        return Status::Memory;
    };
    if let Err(status) = say(line.as_slice(), report) {
        return status;
    }
    answer.status()
}
