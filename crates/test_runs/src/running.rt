// Runs.
ghost use Rattle.std.specs.Prelude.{length, ◌≤◌};

use crate::names::linked;
use crate::world::{Begun, Turned, WRONG, World, outside};
use block_mem::Value;
use cc_base::Outcome;
use clight_unit::ClightUnit;
use std::alloc::{AllocError, Global};
use unit_names::Meaning;

/// The functions of linked units.
pub trait Code {
    /// What an active call runs, and what it has still to do.
    type Activity: Drop;

    /// The call of a function by its unit and its number there. None where there is none, or it has another number of parameters.
    fn begin(
        &self,
        alloc: Global,
        unit: u32,
        index: u32,
        arguments: &[Value],
    ) -> Result<Option<Begun<Self::Activity>>, AllocError>;
}

/// What code does. It is no part of `Code`, since a step may call a function.
pub trait Steps: Code {
    /// One step of the newest call.
    fn step(&self, alloc: Global, world: &mut World<Self::Activity>) -> Result<Turned, AllocError>;
}

/// How a run stands, what it emitted, and how many bytes of the input it took.
#[derive(Drop)]
pub struct Ran {
    pub outcome: Outcome,
    pub emitted: Vec<u8>,
    pub taken: usize,
}

/// A call of what a symbol of the newest call's unit means. It goes wrong where an argument has no value.
pub fn call<C: Code>(
    code: &C,
    alloc: Global,
    world: &mut World<C::Activity>,
    callee: u32,
    to: Option<u64>,
    arguments: Option<Vec<Value>>,
) -> Result<Turned, AllocError> {
    let Some(arguments) = arguments else {
        return Ok(WRONG);
    };
    match world.callee(callee) {
        Meaning::Function { unit, index } => {
            let begun = code.begin(alloc, unit, index, arguments.as_slice())?;
            world.enter(unit, begun, to)
        }
        meaning => Ok(outside(meaning, to, arguments.as_slice())),
    }
}

// The next byte of the input as `getbyte` gives it.
fn taken(input: &[u8], ran: &mut Ran) -> Value {
    match input.get(ran.taken) {
        None => Value::Int(u32::MAX),
        Some(byte) => {
            ran.taken = ran.taken.saturating_add(1);
            Value::Int(u32::from(*byte))
        }
    }
}

// Runs for so many steps at most.
fn advance<C: Steps>(
    code: &C,
    alloc: Global,
    world: &mut World<C::Activity>,
    input: &[u8],
    steps: u32,
    ran: &mut Ran,
) -> Result<(), AllocError> {
    for _ in 0..steps {
        match code.step(alloc, world)? {
            Turned::On => {}
            Turned::Asks(to) => {
                let byte = taken(input, ran);
                let _ = world.give(to, Some(byte))?;
            }
            Turned::Gives(byte) => ran.emitted.push(byte)?,
            Turned::Ends(how) => {
                ran.outcome = how;
                return Ok(());
            }
        }
    }
    Ok(())
}

// How a run begins that enters `main`, or how it is over at once.
fn begun<C: Code>(
    code: &C,
    alloc: Global,
    typed: &[ClightUnit],
    room: u32,
) -> Result<Result<World<C::Activity>, Outcome>, AllocError>
    requires { length typed.now ≤ 4096 }
{
    let (names, memory) = linked(alloc, typed)?;
    let Some(Meaning::Function { unit, index }) = names.main() else {
        return Ok(Err(Outcome::Wrong));
    };
    match code.begin(alloc, unit, index, &[])? {
        None => Ok(Err(Outcome::Wrong)),
        Some(begun) => World::new(alloc, names, memory, room, unit, begun),
    }
}

/// What linked units come to within so many steps, where all active calls together may need so many bytes of stack. The typed units are
/// those that the code was made of.
pub fn run<C: Steps>(
    code: &C,
    alloc: Global,
    typed: &[ClightUnit],
    room: u32,
    input: &[u8],
    steps: u32,
) -> Result<Ran, AllocError>
    requires { length typed.now ≤ 4096 }
{
    let mut ran = Ran {
        outcome: Outcome::Running,
        emitted: Vec::new(alloc),
        taken: 0,
    };
    match begun(code, alloc, typed, room)? {
        Ok(mut world) => advance(code, alloc, &mut world, input, steps, &mut ran)?,
        Err(how) => ran.outcome = how,
    }
    Ok(ran)
}
