// What expressions are found in.
use block_mem::{BlockName, Memory, Value};

/// What an expression is found in.
#[derive(Drop)]
pub struct Scene<'s> {
    pub memory: &'s Memory,
    /// The parameters and `register` locals of the activation, as far as they are set.
    pub temporaries: &'s [Option<Value>],
    /// What each symbol of the unit means as an object.
    pub objects: &'s [Option<BlockName>],
    /// The activation's number.
    pub activation: u64,
}
