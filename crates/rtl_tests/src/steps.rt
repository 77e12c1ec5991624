// Steps: a row for each node.
use crate::code::RtlCode;
use block_mem::Value;
use rtl_lang::RtlNode;
use std::alloc::{AllocError, Global};
use test_runs::graphs::{At, applied, branch, give_back, go, loaded, node_of, put, store};
use test_runs::{Begun, Code, Steps, Turned, Values, WRONG, World, call};

type RtlWorld<'u> = World<At<'u, RtlNode>>;

fn number(temporary: &u32) -> u64 {
    u64::from(*temporary)
}

// The values of temporaries, from left to right. None where one is not set.
fn all_values(
    alloc: Global,
    world: &RtlWorld<'_>,
    temporaries: &[u32],
) -> Result<Option<Vec<Value>>, AllocError> {
    let mut values = Vec::new(alloc);
    for temporary in temporaries {
        let Some(value) = world.get(number(temporary)) else {
            return Ok(None);
        };
        values.push(value)?;
    }
    Ok(Some(values))
}

// A node that puts a value into a temporary: the value, where, and what follows.
fn computed(world: &RtlWorld<'_>, node: &RtlNode) -> Option<(Option<Value>, u64, u32)> {
    match node {
        RtlNode::Const { value, to, next } => Some((Some(Value::Int(*value)), number(to), *next)),
        RtlNode::Address {
            name,
            plus,
            to,
            next,
        } => Some((world.behind(*name, *plus), number(to), *next)),
        RtlNode::Local { index, to, next } => Some((Some(world.local(*index)), number(to), *next)),
        RtlNode::Apply {
            op,
            left,
            right,
            to,
            next,
        } => {
            let value = applied(world, *op, number(left), number(right));
            Some((value, number(to), *next))
        }
        RtlNode::Load {
            width,
            place,
            to,
            next,
        } => Some((loaded(world, *width, number(place)), number(to), *next)),
        _ => None,
    }
}

impl<'u> RtlCode<'u> {
    fn turn(
        &self,
        alloc: Global,
        world: &mut RtlWorld<'u>,
        node: &RtlNode,
    ) -> Result<Turned, AllocError> {
        match node {
            RtlNode::Nop { next } => Ok(go(world, *next)),
            RtlNode::Store {
                width,
                place,
                value,
                next,
            } => Ok(store(world, *width, number(place), number(value), *next)),
            RtlNode::Call {
                name,
                args,
                to,
                next,
            } => {
                let _ = go(world, *next);
                let values = all_values(alloc, world, args.as_slice())?;
                call(self, alloc, world, *name, to.map(u64::from), values)
            }
            RtlNode::Branch { on, yes, no } => Ok(branch(world, number(on), *yes, *no)),
            RtlNode::Return { value } => give_back(world, value.map(u64::from)),
            _ => match computed(world, node) {
                None => Ok(WRONG),
                Some((value, to, next)) => put(world, to, value, next),
            },
        }
    }
}

impl<'u> Code for RtlCode<'u> {
    type Activity = At<'u, RtlNode>;

    fn begin(
        &self,
        alloc: Global,
        unit: u32,
        index: u32,
        arguments: &[Value],
    ) -> Result<Option<Begun<At<'u, RtlNode>>>, AllocError> {
        let Some(function) = self.function(unit, index) else {
            return Ok(None);
        };
        let parts = function.parts();
        if arguments.len() != parts.parameters as usize {
            return Ok(None);
        }
        Ok(Some(Begun {
            activity: At::entry(parts.graph.as_slice(), parts.entry),
            values: Values::first(alloc, arguments)?,
            locals: parts.locals.as_slice().to_vec(alloc)?,
            need: parts.need,
        }))
    }
}

impl<'u> Steps for RtlCode<'u> {
    fn step(&self, alloc: Global, world: &mut RtlWorld<'u>) -> Result<Turned, AllocError> {
        match node_of(world) {
            None => Ok(WRONG),
            Some(node) => self.turn(alloc, world, node),
        }
    }
}
