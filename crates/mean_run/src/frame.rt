// An active call.
use crate::left::Left;
use block_mem::Value;
use clight_sem::Destination;
use clight_unit::Function;
use sqlite_items::Items;

/// An active call.
#[derive(Drop)]
pub struct Frame<'u> {
    /// The number of the function's unit.
    pub unit: u32,
    pub function: &'u Function,
    /// Its number, by which its locals are named.
    pub activation: u64,
    /// Its parameters and `register` locals, as far as they are set.
    pub temporaries: Items<Option<Value>>,
    /// What it has still to do.
    pub left: Left<'u>,
    /// Where its result goes.
    pub result: Destination,
}
