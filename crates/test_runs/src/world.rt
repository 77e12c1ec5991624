// How a run stands, and calls.
use crate::blocks::{end_locals, make_locals};
use crate::names::Names;
use crate::values::Values;
use block_mem::{BlockName, Memory, Value, Width};
use cc_base::Outcome;
use std::alloc::{AllocError, Global};
use std::mem;
use unit_names::Meaning;

/// What a step comes to.
#[derive(Clone, Copy)]
pub enum Turned {
    On,
    /// A byte is asked for, and its value goes to this number, if anywhere.
    Asks(Option<u64>),
    Gives(u8),
    Ends(Outcome),
}

/// The run has done what has no meaning.
pub const WRONG: Turned = Turned::Ends(Outcome::Wrong);

/// How the call of a function begins.
#[derive(Drop)]
pub struct Begun<A> {
    /// What it has to do.
    pub activity: A,
    /// What its numbers hold.
    pub values: Values,
    /// The sizes in bytes of its locals that are blocks.
    pub locals: Vec<u32>,
    /// The stack that it needs, in bytes.
    pub need: u32,
}

/// An active call.
#[derive(Drop)]
pub struct Frame<A> {
    pub unit: u32,
    pub activation: u64,
    pub begun: Begun<A>,
    /// Where its result goes.
    pub result: Option<u64>,
}

/// A run that goes on.
#[derive(Drop)]
pub struct World<A> {
    pub names: Names,
    pub memory: Memory,
    calls: u64,
    pub top: Frame<A>,
    /// The calls below the newest one, the newest last.
    below: Vec<Frame<A>>,
    /// The room for the needs of all active calls together, in bytes.
    room: u64,
    /// What they need, in bytes.
    needed: u64,
}

// The run ends with the value of `main` modulo 256.
fn ended_with(value: Option<Value>) -> Turned {
    match value {
        Some(Value::Int(number)) => Turned::Ends(Outcome::Ended((number % 256) as u8)),
        _ => WRONG,
    }
}

// `putbyte` emits its argument modulo 256. It has no result.
fn gave(to: Option<u64>, arguments: &[Value]) -> Turned {
    match (to, arguments) {
        (None, [Value::Int(number)]) => Turned::Gives((*number % 256) as u8),
        _ => WRONG,
    }
}

impl<A: Drop> World<A> {
    /// A run that has entered `main`, a function of this unit, or how it is over at once.
    pub(crate) fn new(
        alloc: Global,
        names: Names,
        memory: Memory,
        room: u32,
        unit: u32,
        begun: Begun<A>,
    ) -> Result<Result<World<A>, Outcome>, AllocError> {
        if begun.need > room {
            return Ok(Err(Outcome::Deep));
        }
        let mut memory = memory;
        make_locals(&mut memory, 0, begun.locals.as_slice())?;
        Ok(Ok(World {
            names,
            memory,
            calls: 1,
            needed: u64::from(begun.need),
            top: Frame {
                unit,
                activation: 0,
                begun,
                result: None,
            },
            below: Vec::new(alloc),
            room: u64::from(room),
        }))
    }

    /// So many bytes behind the start of the object that a symbol of the newest call's unit means. None where it means none.
    pub fn behind(&self, symbol: u32, offset: u32) -> Option<Value> {
        let block = self.names.object(self.top.unit, symbol)?;
        Some(Value::Ptr { block, offset })
    }

    /// The start of the block of a local of the newest call.
    pub fn local(&self, index: u32) -> Value {
        Value::Ptr {
            block: BlockName::Local {
                activation: self.top.activation,
                index,
            },
            offset: 0,
        }
    }

    /// What a symbol of the newest call's unit means as a callee.
    pub fn callee(&self, symbol: u32) -> Meaning {
        self.names.callee(self.top.unit, symbol)
    }

    /// What a number of the newest call holds, if it is set.
    pub fn get(&self, number: u64) -> Option<Value> {
        self.top.begun.values.get(number)
    }

    /// A store at a place. It goes wrong where a part has no value.
    pub fn store(&mut self, width: Width, place: Option<Value>, value: Option<Value>) -> Turned {
        let (Some(place), Some(value)) = (place, value) else {
            return WRONG;
        };
        match self.memory.store(&place, width, &value) {
            None => WRONG,
            Some(()) => Turned::On,
        }
    }

    /// A call of a function of this unit, if it has one.
    pub fn enter(
        &mut self,
        unit: u32,
        begun: Option<Begun<A>>,
        to: Option<u64>,
    ) -> Result<Turned, AllocError> {
        let Some(begun) = begun else {
            return Ok(WRONG);
        };
        let needed = self.needed.saturating_add(u64::from(begun.need));
        if needed > self.room {
            return Ok(Turned::Ends(Outcome::Deep));
        }
        let activation = self.calls;
        make_locals(&mut self.memory, activation, begun.locals.as_slice())?;
        self.calls = activation.saturating_add(1);
        self.needed = needed;
        let callee = Frame {
            unit,
            activation,
            begun,
            result: to,
        };
        let caller = mem::replace(&mut self.top, callee);
        self.below.push(caller)?;
        Ok(Turned::On)
    }

    /// A value goes to a number, if anywhere.
    pub fn give(&mut self, to: Option<u64>, value: Option<Value>) -> Result<Turned, AllocError> {
        match (to, value) {
            (None, _) => Ok(Turned::On),
            (Some(_), None) => Ok(WRONG),
            (Some(number), Some(value)) => {
                self.top.begun.values.put(number, value)?;
                Ok(Turned::On)
            }
        }
    }

    /// The newest call ends with a value, or with none.
    pub fn leave(&mut self, value: Option<Value>) -> Result<Turned, AllocError> {
        let Some(caller) = self.below.pop() else {
            return Ok(ended_with(value));
        };
        let callee = mem::replace(&mut self.top, caller);
        let Begun { locals, need, .. } = &callee.begun;
        self.needed = self.needed.saturating_sub(u64::from(*need));
        end_locals(&mut self.memory, callee.activation, locals.len());
        self.give(callee.result, value)
    }
}

/// A call of what is no function of any unit.
pub fn outside(meaning: Meaning, to: Option<u64>, arguments: &[Value]) -> Turned {
    match meaning {
        Meaning::GetByte => Turned::Asks(to),
        Meaning::PutByte => gave(to, arguments),
        Meaning::Function { .. } | Meaning::Nothing => WRONG,
    }
}
