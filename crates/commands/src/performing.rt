// The commands, up to their ends.
ghost use Rattle.std.specs.Prelude.{◌≡◌, ◌≤◌, ℕ, List, length, map};
ghost use Rattle.command_words.specs.Commands.{object_name, Fits};
ghost use Rattle.command_words.specs.Orders.{texts, request_of, NamesObjects};
ghost use Rattle.cc_base.specs.Seen.{FilesSeen, SourceSeen, SinkSeen};
ghost use Rattle.commands.specs.Doing.{outside};
ghost use Rattle.commands.specs.Does.{compile_does, link_does, run_does, exec_does, mean_does, does};

use crate::answer::Answer;
use crate::compiling::{compile_all, compile_to};
use crate::files::{fetch, fetch_all, store};
use crate::linking::link_files;
use crate::meaning::{check_all, mean_units};
use crate::running::run_image;
use crate::showing::show;
use cc_base::{Files, Sink, Source};
use command_words::Order;
use std::alloc::Global;

/// Gets a unit, compiles it alone, and puts its object.
pub fn compile<F: Files>(alloc: Global, unit: &str, object: &str, files: &mut F) -> Answer
    ensures { (input : SourceSeen) (output : SinkSeen) → compile_does unit.now object.now (outside (F.seen files.old) input output) result (outside (F.seen files.new) input output) }
{
    match compile_to(alloc, files, unit, object) {
        Ok(bytes) => Answer::ObjectStored(bytes.len() as u64),
        Err(told) => told,
    }
}

/// Gets an image, reads it, loads it, and runs it for so many steps at most.
pub fn run<F: Files, S: Source, O: Sink>(
    alloc: Global,
    steps: u32,
    image: &str,
    files: &mut F,
    input: &mut S,
    output: &mut O,
) -> Answer
    ensures { run_does steps image.now (outside (F.seen files.old) (S.seen input.old) (O.seen output.old))
        result (outside (F.seen files.new) (S.seen input.new) (O.seen output.new)) }
{
    match fetch(alloc, files, image) {
        Ok(bytes) => run_image(alloc, image, bytes.as_slice(), steps, input, output),
        Err(told) => told,
    }
}

/// Gets objects, links them in their order with the runtime behind them, and puts the image.
pub fn link<F: Files>(alloc: Global, image: &str, objects: &[String], files: &mut F) -> Answer
    requires { length objects.now ≤ 4096 }
    ensures { (input : SourceSeen) (output : SinkSeen) → link_does image.now (texts objects.now) (outside (F.seen files.old) input output) result (outside (F.seen files.new) input output) }
{
    let contents = match fetch_all(alloc, files, objects) {
        Ok(contents) => contents,
        Err(told) => return told,
    };
    let bytes = match link_files(alloc, objects, contents.as_slice()) {
        Ok(bytes) => bytes,
        Err(told) => return told,
    };
    match store(alloc, files, image, bytes.as_slice()) {
        Ok(()) => Answer::ImageStored(bytes.len() as u64),
        Err(told) => told,
    }
}

/// Compiles each of these units alone to the object beside it, links these objects, puts the image, and runs the bytes
/// that were put for so many steps at most. The names of the objects are those of the units.
pub fn exec<F: Files, S: Source, O: Sink>(
    alloc: Global,
    steps: u32,
    image: &str,
    units: &[String],
    objects: &[String],
    files: &mut F,
    input: &mut S,
    output: &mut O,
) -> Answer
    requires few { length units.now ≤ 4096 }
    requires named { texts objects.now ≡ map object_name (texts units.now) }
    ensures { exec_does steps image.now (texts units.now) (outside (F.seen files.old) (S.seen input.old) (O.seen output.old))
        result (outside (F.seen files.new) (S.seen input.new) (O.seen output.new)) }
{
    let made = match compile_all(alloc, files, units, objects) {
        Ok(made) => made,
        Err(told) => return told,
    };
    let bytes = match link_files(alloc, objects, made.as_slice()) {
        Ok(bytes) => bytes,
        Err(told) => return told,
    };
    match store(alloc, files, image, bytes.as_slice()) {
        Ok(()) => run_image(alloc, image, bytes.as_slice(), steps, input, output),
        Err(told) => told,
    }
}

/// Gets each of these units and checks its types, and runs the linked units as the source means, for so many turns at
/// most. It puts nothing.
pub fn mean<F: Files, S: Source, O: Sink>(
    alloc: Global,
    steps: u32,
    units: &[String],
    files: &mut F,
    input: &mut S,
    output: &mut O,
) -> Answer
    requires few { length units.now ≤ 4096 }
    ensures { mean_does steps (texts units.now) (outside (F.seen files.old) (S.seen input.old) (O.seen output.old))
        result (outside (F.seen files.new) (S.seen input.new) (O.seen output.new)) }
{
    let typed = match check_all(alloc, files, units) {
        Ok(typed) => typed,
        Err(told) => return told,
    };
    mean_units(alloc, units, typed.as_slice(), steps, input, output)
}

/// Does what words ask for, up to its end.
pub fn perform<F: Files, S: Source, O: Sink>(
    alloc: Global,
    order: &Order<'_>,
    files: &mut F,
    input: &mut S,
    output: &mut O,
) -> Answer
    requires fits { (words : List (List ℕ)) × Fits words (request_of order.now) }
    requires objects { NamesObjects order.now }
    ensures { does (request_of order.now) (outside (F.seen files.old) (S.seen input.old) (O.seen output.old))
        result (outside (F.seen files.new) (S.seen input.new) (O.seen output.new)) }
{
    match order {
        Order::Compile { unit, object } => compile(alloc, unit, object, files),
        Order::Link { image, objects } => link(alloc, image, objects, files),
        Order::Run { steps, image } => run(alloc, *steps, image, files, input, output),
        Order::Show { unit } => show(alloc, unit, files, output),
        Order::Exec {
            steps,
            image,
            units,
            objects,
        } => exec(
            alloc,
            *steps,
            image,
            units,
            objects.as_slice(),
            files,
            input,
            output,
        ),
        Order::Mean { steps, units } => mean(alloc, *steps, units, files, input, output),
    }
}
