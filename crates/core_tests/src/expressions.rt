// The values of expressions.
use crate::code::Activity;
use block_mem::Value;
use core_lang::Expression;
use std::alloc::{AllocError, Global};
use test_runs::World;

/// The value of an expression in the newest call. None where it goes wrong.
pub(crate) fn value_of(world: &World<Activity<'_>>, expression: &Expression) -> Option<Value> {
    match expression {
        Expression::Constant(number) => Some(Value::Int(*number)),
        Expression::Temporary(number) => world.get(u64::from(*number)),
        Expression::Address(symbol, offset) => world.behind(*symbol, *offset),
        Expression::Local(index) => Some(world.local(*index)),
        Expression::Load(width, place) => {
            let place = value_of(world, place.get())?;
            world.memory.load(&place, *width)
        }
        Expression::Unary(op, operand) => {
            let operand = value_of(world, operand.get())?;
            world.memory.apply(*op, &operand, &Value::Int(0))
        }
        Expression::Binary(op, left, right) => {
            let left = value_of(world, left.get())?;
            let right = value_of(world, right.get())?;
            world.memory.apply(*op, &left, &right)
        }
    }
}

/// Values from left to right. None where one goes wrong.
pub(crate) fn all_values(
    alloc: Global,
    world: &World<Activity<'_>>,
    expressions: &[Expression],
) -> Result<Option<Vec<Value>>, AllocError> {
    let mut values = Vec::new(alloc);
    for expression in expressions {
        let Some(value) = value_of(world, expression) else {
            return Ok(None);
        };
        values.push(value)?;
    }
    Ok(Some(values))
}
