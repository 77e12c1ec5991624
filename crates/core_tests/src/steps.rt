// Steps.
use crate::code::{Activity, CoreCode, Item};
use crate::expressions::{all_values, value_of};
use block_mem::Value;
use core_lang::{Ending, Expression, Statement};
use std::alloc::{AllocError, Global};
use test_runs::{Begun, Code, Steps, Turned, Values, WRONG, World, call};

// A return.
fn give_back(
    world: &mut World<Activity<'_>>,
    value: &Option<Expression>,
) -> Result<Turned, AllocError> {
    let Some(expression) = value else {
        return world.leave(None);
    };
    match value_of(world, expression) {
        None => Ok(WRONG),
        Some(value) => world.leave(Some(value)),
    }
}

// With nothing left.
fn end(world: &mut World<Activity<'_>>) -> Result<Turned, AllocError> {
    match world.top.begun.activity.ending {
        Ending::Bare => world.leave(None),
        Ending::Zero => world.leave(Some(Value::Int(0))),
        Ending::Stuck => Ok(WRONG),
    }
}

fn branch<'u>(
    activity: &mut Activity<'u>,
    value: Option<Value>,
    this: &'u [Statement],
    that: &'u [Statement],
) -> Result<Turned, AllocError> {
    let Some(Value::Int(number)) = value else {
        return Ok(WRONG);
    };
    activity.put_all(if number != 0 { this } else { that })?;
    Ok(Turned::On)
}

// What only changes what is left.
fn go<'u>(activity: &mut Activity<'u>, statement: &'u Statement) -> Result<Turned, AllocError> {
    match statement {
        Statement::Loop(body) => activity.put(body.as_slice(), Item::Do(statement))?,
        Statement::Block(body) => activity.put(body.as_slice(), Item::End)?,
        Statement::Exit(more) => activity.leave(*more),
        _ => return Ok(WRONG),
    }
    Ok(Turned::On)
}

impl<'u> CoreCode<'u> {
    fn statement(
        &self,
        alloc: Global,
        world: &mut World<Activity<'u>>,
        statement: &'u Statement,
    ) -> Result<Turned, AllocError> {
        match statement {
            Statement::Set(number, value) => {
                let value = value_of(world, value);
                world.give(Some(u64::from(*number)), value)
            }
            Statement::Store(width, place, value) => {
                let place = value_of(world, place);
                let value = value_of(world, value);
                Ok(world.store(*width, place, value))
            }
            Statement::Call(to, callee, arguments) => {
                let values = all_values(alloc, world, arguments.as_slice())?;
                call(self, alloc, world, *callee, to.map(u64::from), values)
            }
            Statement::If(value, this, that) => {
                let value = value_of(world, value);
                let activity = &mut world.top.begun.activity;
                branch(activity, value, this.as_slice(), that.as_slice())
            }
            Statement::Return(value) => give_back(world, value),
            _ => go(&mut world.top.begun.activity, statement),
        }
    }
}

impl<'u> Code for CoreCode<'u> {
    type Activity = Activity<'u>;

    fn begin(
        &self,
        alloc: Global,
        unit: u32,
        index: u32,
        arguments: &[Value],
    ) -> Result<Option<Begun<Activity<'u>>>, AllocError> {
        let Some(function) = self.function(unit, index) else {
            return Ok(None);
        };
        if arguments.len() != function.parameters as usize {
            return Ok(None);
        }
        let mut activity = Activity {
            ending: function.ending,
            left: Vec::new(alloc),
        };
        activity.put_all(function.body.as_slice())?;
        Ok(Some(Begun {
            activity,
            values: Values::first(alloc, arguments)?,
            locals: function.locals.as_slice().to_vec(alloc)?,
            need: function.need,
        }))
    }
}

impl<'u> Steps for CoreCode<'u> {
    // One step takes the first item of what the newest call has still to do.
    fn step(&self, alloc: Global, world: &mut World<Activity<'u>>) -> Result<Turned, AllocError> {
        match world.top.begun.activity.left.pop() {
            None => end(world),
            Some(Item::Do(statement)) => self.statement(alloc, world, statement),
            Some(Item::End) => Ok(Turned::On),
        }
    }
}
