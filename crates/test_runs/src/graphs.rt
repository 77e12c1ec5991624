// Languages whose functions are graphs of nodes.
use crate::world::{Turned, WRONG, World};
use block_mem::{Op, Value, Width};
use std::alloc::AllocError;

/// What an active call runs, and the node that comes next.
#[derive(Drop)]
pub struct At<'u, N> {
    graph: &'u [N],
    node: u32,
}

impl<'u, N: Drop> At<'u, N> {
    /// A call that stands at the entry of a graph.
    pub fn entry(graph: &'u [N], node: u32) -> At<'u, N> {
        At { graph, node }
    }
}

/// The node that comes next, if its number has one.
pub fn node_of<'u, N: Drop>(world: &World<At<'u, N>>) -> Option<&'u N> {
    let At { graph, node } = &world.top.begun.activity;
    graph.get(*node as usize)
}

/// A node follows.
pub fn go<N: Drop>(world: &mut World<At<'_, N>>, next: u32) -> Turned {
    world.top.begun.activity.node = next;
    Turned::On
}

/// A value comes to a number, and a node follows. It goes wrong where there is no value.
pub fn put<N: Drop>(
    world: &mut World<At<'_, N>>,
    to: u64,
    value: Option<Value>,
    next: u32,
) -> Result<Turned, AllocError> {
    let _ = go(world, next);
    world.give(Some(to), value)
}

/// The first node follows where the number does not hold 0, else the second.
pub fn branch<N: Drop>(world: &mut World<At<'_, N>>, on: u64, yes: u32, no: u32) -> Turned {
    match world.get(on) {
        Some(Value::Int(0)) => go(world, no),
        Some(Value::Int(_)) => go(world, yes),
        _ => WRONG,
    }
}

/// What stands at the address that a number holds.
pub fn loaded<N: Drop>(world: &World<At<'_, N>>, width: Width, place: u64) -> Option<Value> {
    let place = world.get(place)?;
    world.memory.load(&place, width)
}

/// What an operator gives of what two numbers hold.
pub fn applied<N: Drop>(world: &World<At<'_, N>>, op: Op, left: u64, right: u64) -> Option<Value> {
    let left = world.get(left)?;
    let right = world.get(right)?;
    world.memory.apply(op, &left, &right)
}

/// What a number holds is stored at the address that another holds, and a node follows.
pub fn store<N: Drop>(
    world: &mut World<At<'_, N>>,
    width: Width,
    place: u64,
    value: u64,
    next: u32,
) -> Turned {
    let _ = go(world, next);
    let place = world.get(place);
    let value = world.get(value);
    world.store(width, place, value)
}

/// The newest call ends with what a number holds, or with no value.
pub fn give_back<N: Drop>(
    world: &mut World<At<'_, N>>,
    value: Option<u64>,
) -> Result<Turned, AllocError> {
    let Some(number) = value else {
        return world.leave(None);
    };
    match world.get(number) {
        None => Ok(WRONG),
        Some(value) => world.leave(Some(value)),
    }
}
