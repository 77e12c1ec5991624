// Calls and returns.
ghost use Rattle.std.specs.Prelude.{◌≡◌, ◌+◌, ◌≤◌, ◌<◌, ◌^◌, [], ◌∷◌, nat_le, true, map, Some, IfOk, OnOk, MatchOption};
ghost use Rattle.clight_sem.specs.Values.{all_converted};
ghost use Rattle.clight_sem.specs.States.{World, scene_of};
ghost use Rattle.clight_sem.specs.Functions.{function_at, has_no_result};
ghost use Rattle.clight_sem.specs.Turns.{first_temporaries, new_frame, entered, left_with, fallen, found_if_any, called_with, called, asked, gave};
ghost use Rattle.mean_run.specs.Frames.{frame_of};
ghost use Rattle.mean_run.specs.Processes.{linked_of, world_of, on_top, both_found, received, TurnsTo};

use crate::destinations::found_if_any;
use crate::evaluation::all_converted;
use crate::frame::Frame;
use crate::left::Left;
use crate::memories::{end_locals, make_locals};
use crate::process::{Final, Pending, Process};
use crate::program::Program;
use block_mem::Value;
use clight_sem::Destination;
use clight_unit::{Call, Function, ValueBase};
use sqlite_items::Items;
use std::alloc::{AllocError, Global};
use std::mem;
use unit_names::Meaning;

/// The run goes wrong.
pub const WRONG: Pending = Pending::End(Final::Wrong);

// Whether a new call's need fits into the room beside that of the active calls.
fn fits(room: u32, need: u32, needed: u32) -> bool
    ensures fits { result ≡ nat_le (need + needed) room }
    ensures small { result ≡ true → need + needed < 2 ^ 32 }
{
    need <= room && needed <= room - need
}

// The arguments as temporaries.
fn set_temporaries(alloc: Global, arguments: &[Value]) -> Result<Items<Option<Value>>, AllocError>
    ensures { IfOk result (λ ts. ts ≡ map Some arguments.now) }
{
    let mut temporaries = Items::new(alloc);
    'arguments: for argument in arguments {
        temporaries.push(Some(*argument))?;
    }
    Ok(temporaries)
}

// The temporaries of a new call: its arguments, and unset `register` locals.
fn first_temporaries(
    alloc: Global,
    function: &Function,
    arguments: &[Value],
) -> Result<Items<Option<Value>>, AllocError>
    ensures { IfOk result (λ ts. ts ≡ first_temporaries function.now arguments.now) }
{
    let mut temporaries = set_temporaries(alloc, arguments)?;
    'registers: for _register in 0..function.registers {
        temporaries.push(None)?;
    }
    Ok(temporaries)
}

/// A new call of a function, which has its body to do.
pub fn new_frame<'u>(
    alloc: Global,
    unit: u32,
    function: &'u Function,
    activation: u64,
    arguments: &[Value],
    destination: Destination,
) -> Result<Frame<'u>, AllocError>
    ensures { IfOk result (λ f. frame_of f ≡ new_frame unit function.now activation arguments.now destination) }
{
    Ok(Frame {
        unit,
        function,
        activation,
        temporaries: first_temporaries(alloc, function, arguments)?,
        left: Left::new(alloc, function.body.as_slice()),
        result: destination,
    })
}

impl<'u> Process<'u> {
    // A new call, which is now the newest.
    fn push(&mut self, frame: Frame<'u>) -> Result<(), AllocError>
        requires fits { frame.function.now.need + self.old.needed < 2 ^ 32 }
        ensures world { OnOk result (world_of self.new ≡ on_top (world_of self.old) (frame_of frame.entry)) }
        ensures calls { self.new.calls ≡ self.old.calls }
    {
        let need = frame.function.need;
        let need_of_caller = self.top.function.need;
        let needed_below = self.needed - need_of_caller;
        let caller = mem::replace(&mut self.top, frame);
        self.needed = needed_below + need;
        self.below.push(caller)?;
        self.needed += need_of_caller;
        Ok(())
    }

    // The newest call, where there is one below it, which is now the newest.
    fn pop(&mut self) -> Option<Frame<'u>>
        ensures world { MatchOption result (((world_of self.old).below ≡ []) × (world_of self.new ≡ world_of self.old)) (λ f. world_of self.old ≡ on_top (world_of self.new) (frame_of f)) }
        ensures calls { self.new.calls ≡ self.old.calls }
    {
        let caller = self.below.pop()?;
        let callee = mem::replace(&mut self.top, caller);
        self.needed -= callee.function.need;
        Some(callee)
    }

    // A call of a function, if it has as many arguments as the function has parameters, and the stack has room for it.
    fn enter(
        &mut self,
        program: &Program<'u>,
        unit: u32,
        index: u32,
        arguments: &[Value],
        destination: Destination,
    ) -> Result<Pending, AllocError>
        requires few { self.old.calls < 2 ^ 63 }
        ensures turn { IfOk result (λ x. TurnsTo (entered (linked_of program.now) self.old.memory self.old.calls unit (function_at program.now.units.now unit index) arguments.now destination ((world_of self.old).top ∷ (world_of self.old).below)) x (world_of self.new)) }
        ensures calls { self.new.calls ≤ self.old.calls + 1 }
    {
        let Some(function) = program.function(unit, index) else {
            return Ok(WRONG);
        };
        if arguments.len() != function.signature.parameters.len() {
            return Ok(WRONG);
        }
        if !fits(program.room, function.need, self.needed) {
            return Ok(Pending::End(Final::Deep));
        }
        let frame = new_frame(
            self.alloc,
            unit,
            function,
            self.calls,
            arguments,
            destination,
        )?;
        make_locals(&mut self.memory, self.calls, function.locals.as_slice())?;
        self.calls += 1;
        self.push(frame)?;
        Ok(Pending::Nothing)
    }

    // A call of `getbyte`. Where its result can go where it is to go, -1 goes there already.
    fn ask(&mut self, destination: Destination) -> Pending
        ensures turn { TurnsTo (asked destination (world_of self.old)) result (world_of self.new) }
        ensures calls { self.new.calls ≡ self.old.calls }
    {
        if self.give(&destination, Value::Int(0xFFFF_FFFF)) {
            Pending::Byte(destination)
        } else {
            WRONG
        }
    }

    // A call of what a name means.
    fn call_meaning(
        &mut self,
        program: &Program<'u>,
        meaning: Meaning,
        destination: Destination,
        arguments: &[Value],
    ) -> Result<Pending, AllocError>
        requires few { self.old.calls < 2 ^ 63 }
        ensures turn { IfOk result (λ x. TurnsTo (called_with (linked_of program.now) (world_of self.old) meaning destination arguments.now) x (world_of self.new)) }
        ensures calls { self.new.calls ≤ self.old.calls + 1 }
    {
        match meaning {
            Meaning::Function { unit, index } => {
                self.enter(program, unit, index, arguments, destination)
            }
            Meaning::GetByte => Ok(self.ask(destination)),
            Meaning::PutByte => Ok(emitted(destination, arguments)),
            Meaning::Nothing => Ok(WRONG),
        }
    }

    // The place of a call's result, and then its arguments. None where one goes wrong.
    fn found(
        &self,
        program: &Program<'u>,
        call: &Call,
    ) -> Result<Option<(Destination, Items<Value>)>, AllocError>
        ensures { IfOk result (λ found. found ≡ both_found (found_if_any (scene_of (linked_of program.now) (world_of self.now)) call.now.conversion call.now.target) (all_converted (scene_of (linked_of program.now) (world_of self.now)) call.now.arguments)) }
    {
        let scene = self.scene(program);
        let Some(destination) = found_if_any(&scene, call.conversion, &call.target) else {
            return Ok(None);
        };
        let Some(arguments) = all_converted(self.alloc, &scene, call.arguments.as_slice())? else {
            return Ok(None);
        };
        Ok(Some((destination, arguments)))
    }

    /// A call: the place of its result, its arguments, and then the call of what the name means.
    #[tactic(auto, using(crate::proofs::Frames::not_called, crate::proofs::Frames::is_called))]
    pub fn call(&mut self, program: &Program<'u>, call: &Call) -> Result<Pending, AllocError>
        requires few { self.old.calls < 2 ^ 63 }
        ensures turn { IfOk result (λ x. TurnsTo (called (linked_of program.now) (world_of self.old) call.now) x (world_of self.new)) }
        ensures calls { self.new.calls ≤ self.old.calls + 1 }
    {
        let Some((destination, arguments)) = self.found(program, call)? else {
            return Ok(WRONG);
        };
        let meaning = program.callee(self.top.unit, call.callee);
        self.call_meaning(program, meaning, destination, arguments.as_slice())
    }

    // The newest call gets what the call that it made returned.
    fn receive(&mut self, destination: &Destination, value: Option<Value>) -> Pending
        ensures turn { TurnsTo (received destination.now value (world_of self.old)) result (world_of self.new) }
        ensures calls { self.new.calls ≡ self.old.calls }
    {
        match value {
            None => match destination {
                Destination::Nowhere => Pending::Nothing,
                _ => WRONG,
            },
            Some(value) => {
                if self.give(destination, value) {
                    Pending::Nothing
                } else {
                    WRONG
                }
            }
        }
    }

    /// The newest call ends with a value, or with none.
    pub fn leave(&mut self, value: Option<Value>) -> Result<Pending, AllocError>
        ensures turn { IfOk result (λ x. TurnsTo (left_with (world_of self.old) value (world_of self.old).below) x (world_of self.new)) }
        ensures calls { self.new.calls ≡ self.old.calls }
    {
        let Some(callee) = self.pop() else {
            return Ok(ended(value));
        };
        let locals = callee.function.locals.as_slice();
        end_locals(&mut self.memory, callee.activation, locals)?;
        Ok(self.receive(&callee.result, value))
    }

    /// The newest call has nothing left to do.
    pub fn fall(&mut self, program: &Program<'u>) -> Result<Pending, AllocError>
        ensures turn { IfOk result (λ x. TurnsTo (fallen (linked_of program.now) (world_of self.old)) x (world_of self.new)) }
        ensures calls { self.new.calls ≡ self.old.calls }
    {
        if has_no_result(self.top.function) {
            self.leave(None)
        } else if program.is_main(self.top.unit, self.top.function) {
            self.leave(Some(Value::Int(0)))
        } else {
            Ok(WRONG)
        }
    }
}

// A function whose result is of type `void`.
fn has_no_result(function: &Function) -> bool
    ensures { result ≡ has_no_result function.now.signature }
{
    let result = &function.signature.result;
    match result.base {
        ValueBase::Void => result.stars == 0,
        _ => false,
    }
}

// A call of `putbyte`.
fn emitted(destination: Destination, arguments: &[Value]) -> Pending
    ensures { (w : World) → TurnsTo (gave w destination arguments.now) result w }
{
    match (destination, arguments) {
        (Destination::Nowhere, [Value::Int(number)]) => Pending::Give((*number % 256) as u8),
        _ => WRONG,
    }
}

// The run ends with the value of `main`.
fn ended(value: Option<Value>) -> Pending
    ensures { (w new : World) → TurnsTo (left_with w value []) result new }
{
    match value {
        Some(Value::Int(number)) => Pending::End(Final::Ended((number % 256) as u8)),
        _ => WRONG,
    }
}
