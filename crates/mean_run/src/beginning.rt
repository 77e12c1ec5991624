// The start of a run.
ghost use Rattle.std.specs.Prelude.{◌≡◌, ◌≤◌, IfOk};
ghost use Rattle.block_mem.specs.Start.{start};
ghost use Rattle.clight_sem.specs.Functions.{all_parts};
ghost use Rattle.clight_sem.specs.Turns.{entered_main};
ghost use Rattle.mean_run.specs.Processes.{linked_of, BeginsAs, HasCalled};

use crate::calls::new_frame;
use crate::memories::make_locals;
use crate::process::{Final, Process};
use crate::program::Program;
use block_mem::Memory;
use clight_sem::Destination;
use sqlite_items::Items;
use std::alloc::{AllocError, Global};
use unit_names::Meaning;

/// The process that a program begins with in this memory, where `main` means this; or how its run is over at once.
pub fn begin<'u>(
    alloc: Global,
    program: &Program<'u>,
    memory: Memory,
    main: Option<Meaning>,
) -> Result<Result<Process<'u>, Final>, AllocError>
    ensures begun { memory ≡ start (all_parts program.now.units.now) → IfOk result (λ r. BeginsAs (entered_main (linked_of program.now) main) r) }
    ensures calls { IfOk result HasCalled }
{
    let Some(Meaning::Function { unit, index }) = main else {
        return Ok(Err(Final::Wrong));
    };
    let Some(function) = program.function(unit, index) else {
        return Ok(Err(Final::Wrong));
    };
    if !function.signature.parameters.is_empty() {
        return Ok(Err(Final::Wrong));
    }
    if function.need > program.room {
        return Ok(Err(Final::Deep));
    }
    let mut memory = memory;
    make_locals(&mut memory, 0, function.locals.as_slice())?;
    let top = new_frame(alloc, unit, function, 0, &[], Destination::Nowhere)?;
    Ok(Ok(Process {
        alloc,
        memory,
        calls: 1,
        top,
        below: Items::new(alloc),
        needed: function.need,
    }))
}
