// What linked units come to.
ghost use Rattle.std.specs.Prelude.{◌≡◌, ◌≤◌, length, Ok, Err, IfOk};
ghost use Rattle.cc_base.specs.Faces.{Linkable};
ghost use Rattle.clight_sem.specs.Functions.{linked, main_of};
ghost use Rattle.clight_sem.specs.Turns.{entered_main, source_after};
ghost use Rattle.mean_run.specs.Processes.{linked_of, BeginsAs, HasCalled};
ghost use Rattle.mean_start.specs.Linkages.{IsLinkage};
ghost use Rattle.mean_source.specs.Means.{Comes, Happens, Means};
ghost use Rattle.mean_source.specs.Programs.{fault_of_names, fault_of_run, end_at_once, program_after};

use cc_base::{Sink, Source, SourceFault};
use clight_unit::ClightUnit;
use mean_run::{Final, MeanEnd, Process, Program, RunFault, begin, run};
use mean_start::{
    Linkage, callees_by_unit, fault_of, linkage_of, main_of, objects_by_unit, start_memory,
};
use std::alloc::{AllocError, Global};

/// Why a program comes to nothing.
#[derive(Clone, Copy, Debug, PartialEq, Eq)]
pub enum MeanFault {
    /// An earlier definition has the same name: the definition of this index in the face of this unit.
    Doubled {
        unit: u32,
        index: u32,
    },
    /// A used name means nothing: the use of this index. A missing `main` has the number of units as its unit.
    Unresolved {
        unit: u32,
        index: u32,
    },
    /// An object has another size than a use states.
    Sized {
        unit: u32,
        index: u32,
        stated: u32,
        defined: u32,
    },
    /// The source failed.
    Read,
    /// The sink failed.
    Write,
    /// There was not enough memory.
    Memory,
}

/// How much stack all active calls may need together where nothing else is stated, in bytes.
pub const ROOM: u32 = 1_048_512;

// The fault of the names.
fn of_names(fault: SourceFault) -> MeanFault
    ensures { result ≡ fault_of_names fault }
{
    match fault {
        SourceFault::Doubled { unit, index } => MeanFault::Doubled { unit, index },
        SourceFault::Unresolved { unit, index } => MeanFault::Unresolved { unit, index },
        SourceFault::Sized {
            unit,
            index,
            stated,
            defined,
        } => MeanFault::Sized {
            unit,
            index,
            stated,
            defined,
        },
    }
}

// The program of these units.
fn program_of<'u>(
    alloc: Global,
    linkage: &Linkage<'u>,
    room: u32,
) -> Result<Program<'u>, AllocError>
    requires linkage { IsLinkage linkage.now }
    ensures linked { IfOk result (λ program. linked_of program ≡ linked linkage.now.units.now room) }
    ensures units { IfOk result (λ program. program.units.now ≡ linkage.now.units.now) }
{
    let objects = objects_by_unit(alloc, linkage)?;
    let callees = callees_by_unit(alloc, linkage)?;
    Ok(Program {
        units: linkage.units,
        objects,
        callees,
        room,
    })
}

// The process that a program begins with, or how its run is over at once.
fn started<'u>(
    alloc: Global,
    linkage: &Linkage<'u>,
    program: &Program<'u>,
) -> Result<Result<Process<'u>, Final>, AllocError>
    requires linkage { IsLinkage linkage.now }
    requires units { program.now.units.now ≡ linkage.now.units.now }
    ensures begun { IfOk result (λ r. BeginsAs (entered_main (linked_of program.now) (main_of (linked_of program.now))) r) }
    ensures calls { IfOk result HasCalled }
{
    let memory = start_memory(alloc, linkage)?;
    let main = main_of(linkage);
    begin(alloc, program, memory, main)
}

// The end of a run that is over before its first turn.
fn at_once(how: Final) -> MeanEnd
    ensures { result ≡ end_at_once how }
{
    match how {
        Final::Ended(status) => MeanEnd::Ended(status),
        Final::Wrong => MeanEnd::Wrong { turn: 0 },
        Final::Deep => MeanEnd::Deep { turn: 0 },
    }
}

// The fault of a run.
fn of_run(fault: RunFault) -> MeanFault
    ensures { result ≡ fault_of_run fault }
{
    match fault {
        RunFault::Read => MeanFault::Read,
        RunFault::Write => MeanFault::Write,
        RunFault::Memory => MeanFault::Memory,
    }
}

// What a program comes to, with whose names nothing is wrong.
fn run_program<'u, S: Source, O: Sink>(
    alloc: Global,
    linkage: &Linkage<'u>,
    program: &Program<'u>,
    steps: u32,
    input: &mut S,
    output: &mut O,
) -> Result<MeanEnd, MeanFault>
    requires linkage { IsLinkage linkage.now }
    requires units { program.now.units.now ≡ linkage.now.units.now }
    ensures { Comes (program_after (linked_of program.now)) steps (S.seen input.old) (O.seen output.old) result (S.seen input.new) (O.seen output.new) × Happens (linked_of program.now) steps (S.seen input.old) (O.seen output.old) result (S.seen input.new) (O.seen output.new) }
{
    let Ok(begun) = started(alloc, linkage, program) else {
        return Err(MeanFault::Memory);
    };
    let mut process = match begun {
        Ok(process) => process,
        Err(how) => return Ok(at_once(how)),
    };
    match run(&mut process, program, steps, input, output) {
        Ok(end) => Ok(end),
        Err(fault) => Err(of_run(fault)),
    }
}

// What units come to, with whose names nothing is wrong.
fn run_units<S: Source, O: Sink>(
    alloc: Global,
    linkage: &Linkage<'_>,
    room: u32,
    steps: u32,
    input: &mut S,
    output: &mut O,
) -> Result<MeanEnd, MeanFault>
    requires linkage { IsLinkage linkage.now }
    ensures { Comes (source_after linkage.now.units.now room) steps (S.seen input.old) (O.seen output.old) result (S.seen input.new) (O.seen output.new) × Happens (linked linkage.now.units.now room) steps (S.seen input.old) (O.seen output.old) result (S.seen input.new) (O.seen output.new) }
{
    let Ok(program) = program_of(alloc, linkage, room) else {
        return Err(MeanFault::Memory);
    };
    run_program(alloc, linkage, &program, steps, input, output)
}

// What units come to, or what is wrong with their names.
fn mean_linked<S: Source, O: Sink>(
    alloc: Global,
    linkage: &Linkage<'_>,
    room: u32,
    steps: u32,
    input: &mut S,
    output: &mut O,
) -> Result<MeanEnd, MeanFault>
    requires linkage { IsLinkage linkage.now }
    ensures { Means linkage.now.units.now room steps (S.seen input.old) (O.seen output.old) result (S.seen input.new) (O.seen output.new) }
{
    let Ok(fault) = fault_of(alloc, linkage) else {
        return Err(MeanFault::Memory);
    };
    if let Some(fault) = fault {
        return Err(of_names(fault));
    }
    run_units(alloc, linkage, room, steps, input, output)
}

/// What linked units come to within so many turns, where all active calls together may need so many bytes of stack. What
/// was emitted is given to the output before the next turn.
pub fn mean_in<S: Source, O: Sink>(
    alloc: Global,
    units: &[ClightUnit],
    room: u32,
    steps: u32,
    input: &mut S,
    output: &mut O,
) -> Result<MeanEnd, MeanFault>
    requires few { length units.now ≤ 4096 }
    ensures { Means units.now room steps (S.seen input.old) (O.seen output.old) result (S.seen input.new) (O.seen output.new) }
{
    let Ok(linkage) = linkage_of(alloc, units) else {
        return Err(MeanFault::Memory);
    };
    mean_linked(alloc, &linkage, room, steps, input, output)
}

/// What linked units come to within so many turns, with the stack that an image has where nothing else is stated.
pub fn mean<S: Source, O: Sink>(
    alloc: Global,
    units: &[ClightUnit],
    steps: u32,
    input: &mut S,
    output: &mut O,
) -> Result<MeanEnd, MeanFault>
    requires few { length units.now ≤ 4096 }
    ensures { Means units.now 1048512 steps (S.seen input.old) (O.seen output.old) result (S.seen input.new) (O.seen output.new) }
{
    mean_in(alloc, units, ROOM, steps, input, output)
}
