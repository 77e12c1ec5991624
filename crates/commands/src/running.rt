// Images that are read, loaded and run.
ghost use Rattle.std.specs.Prelude.{◌≡◌, ◌<◌, ◌^◌, length};
ghost use Rattle.cc_base.specs.Seen.{FilesSeen};
ghost use Rattle.commands.specs.Doing.{outside};
ghost use Rattle.commands.specs.Steps.{Runs};

use crate::answer::Answer;
use cc_base::{Name, Sink, Source};
use elf_file::{ElfFault, read_image};
use elf_loader::{LoadFault, load};
use i386_machine::{RunEnd, run};
use std::alloc::Global;

// Reads the bytes of an image, which has this name, loads them and runs them, for so many steps at most. The files have
// no part in it. The name is copied first: after a refusal there may be no memory for it.
pub(crate) fn run_image<S: Source, O: Sink>(
    alloc: Global,
    name: &str,
    bytes: &[u8],
    steps: u32,
    input: &mut S,
    output: &mut O,
) -> Answer
    requires { length bytes.now < 2 ^ 32 }
    ensures { (files : FilesSeen) →
        Runs steps name.now bytes.now (outside files (S.seen input.old) (O.seen output.old))
        result (outside files (S.seen input.new) (O.seen output.new)) }
{
    let Ok(file) = Name::from_slice(alloc, name.as_bytes()) else {
        return Answer::Memory;
    };
    let image = match read_image(alloc, bytes) {
        Ok(image) => image,
        Err(ElfFault::Form) => return Answer::ImageForm(file),
        Err(ElfFault::Memory) => return Answer::Memory,
    };
    let mut machine = match load(alloc, &image) {
        Ok(machine) => machine,
        Err(LoadFault::Segment { index }) => return Answer::ImageSegment { file, index },
        Err(LoadFault::Entry) => return Answer::ImageEntry(file),
        Err(LoadFault::Memory) => return Answer::Memory,
    };
    match run(&mut machine, steps, input, output) {
        RunEnd::Ended(status) => Answer::Ended(status),
        RunEnd::Spent => Answer::Spent,
        RunEnd::Stuck { eip, cause } => Answer::Stuck { eip, cause },
        RunEnd::Read => Answer::ReadFault,
        RunEnd::Write => Answer::WriteFault,
        RunEnd::Memory => Answer::Memory,
    }
}
