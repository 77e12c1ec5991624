// Steps: a row for each node.
use crate::code::LtlCode;
use block_mem::Value;
use ltl_lang::{Loc, LtlNode};
use std::alloc::{AllocError, Global};
use test_runs::graphs::{At, applied, branch, give_back, go, loaded, node_of, put, store};
use test_runs::{Begun, Code, Steps, Turned, Values, WRONG, World, call};

type LtlWorld<'u> = World<At<'u, LtlNode>>;

// The registers come first, and then the slots.
fn number(location: &Loc) -> u64 {
    match location {
        Loc::Ebx => 0,
        Loc::Esi => 1,
        Loc::Edi => 2,
        Loc::Ebp => 3,
        Loc::Slot(slot) => 4 + u64::from(*slot),
    }
}

fn number_if_any(location: &Option<Loc>) -> Option<u64> {
    match location {
        Some(location) => Some(number(location)),
        None => None,
    }
}

// The values of locations, from left to right. None where one is not set.
fn all_values(
    alloc: Global,
    world: &LtlWorld<'_>,
    locations: &[Loc],
) -> Result<Option<Vec<Value>>, AllocError> {
    let mut values = Vec::new(alloc);
    for location in locations {
        let Some(value) = world.get(number(location)) else {
            return Ok(None);
        };
        values.push(value)?;
    }
    Ok(Some(values))
}

// A node that puts a value into a location: the value, where, and what follows.
fn computed(world: &LtlWorld<'_>, node: &LtlNode) -> Option<(Option<Value>, u64, u32)> {
    match node {
        LtlNode::Const { value, to, next } => Some((Some(Value::Int(*value)), number(to), *next)),
        LtlNode::Address {
            name,
            plus,
            to,
            next,
        } => Some((world.behind(*name, *plus), number(to), *next)),
        LtlNode::Local { index, to, next } => Some((Some(world.local(*index)), number(to), *next)),
        LtlNode::Apply {
            op,
            left,
            right,
            to,
            next,
        } => {
            let value = applied(world, *op, number(left), number(right));
            Some((value, number(to), *next))
        }
        LtlNode::Load {
            width,
            place,
            to,
            next,
        } => Some((loaded(world, *width, number(place)), number(to), *next)),
        _ => None,
    }
}

impl<'u> LtlCode<'u> {
    fn turn(
        &self,
        alloc: Global,
        world: &mut LtlWorld<'u>,
        node: &LtlNode,
    ) -> Result<Turned, AllocError> {
        match node {
            LtlNode::Nop { next } => Ok(go(world, *next)),
            LtlNode::Store {
                width,
                place,
                value,
                next,
            } => Ok(store(world, *width, number(place), number(value), *next)),
            LtlNode::Call {
                name,
                args,
                to,
                next,
            } => {
                let _ = go(world, *next);
                let values = all_values(alloc, world, args.as_slice())?;
                call(self, alloc, world, *name, number_if_any(to), values)
            }
            LtlNode::Branch { on, yes, no } => Ok(branch(world, number(on), *yes, *no)),
            LtlNode::Return { value } => give_back(world, number_if_any(value)),
            _ => match computed(world, node) {
                None => Ok(WRONG),
                Some((value, to, next)) => put(world, to, value, next),
            },
        }
    }
}

// Each argument in the home of its parameter. Of two in one home the first stays.
fn placed(alloc: Global, homes: &[Loc], arguments: &[Value]) -> Result<Values, AllocError> {
    let mut values = Values::new(alloc);
    for (home, argument) in homes.iter().zip(arguments) {
        if values.get(number(home)).is_none() {
            values.put(number(home), *argument)?;
        }
    }
    Ok(values)
}

impl<'u> Code for LtlCode<'u> {
    type Activity = At<'u, LtlNode>;

    fn begin(
        &self,
        alloc: Global,
        unit: u32,
        index: u32,
        arguments: &[Value],
    ) -> Result<Option<Begun<At<'u, LtlNode>>>, AllocError> {
        let Some(function) = self.function(unit, index) else {
            return Ok(None);
        };
        let parts = function.parts();
        if arguments.len() != parts.parameters as usize {
            return Ok(None);
        }
        Ok(Some(Begun {
            activity: At::entry(parts.graph.as_slice(), parts.entry),
            values: placed(alloc, parts.homes.as_slice(), arguments)?,
            locals: parts.locals.as_slice().to_vec(alloc)?,
            need: parts.need,
        }))
    }
}

impl<'u> Steps for LtlCode<'u> {
    fn step(&self, alloc: Global, world: &mut LtlWorld<'u>) -> Result<Turned, AllocError> {
        match node_of(world) {
            None => Ok(WRONG),
            Some(node) => self.turn(alloc, world, node),
        }
    }
}
