// Values by numbers.
use block_mem::Value;
use std::alloc::{AllocError, Global};

/// What the temporaries or locations of a call hold, as far as they are set, each with its number.
#[derive(Drop)]
pub struct Values {
    set: Vec<(u64, Value)>,
}

impl Values {
    /// Nothing is set.
    pub fn new(alloc: Global) -> Values {
        Values {
            set: Vec::new(alloc),
        }
    }

    /// The first numbers hold these values.
    pub fn first(alloc: Global, values: &[Value]) -> Result<Values, AllocError> {
        let mut set = Vec::new(alloc);
        for (index, value) in values.iter().enumerate() {
            set.push((index as u64, *value))?;
        }
        Ok(Values { set })
    }

    /// What the number holds, if it is set.
    pub fn get(&self, number: u64) -> Option<Value> {
        for (set, value) in &self.set {
            if *set == number {
                return Some(*value);
            }
        }
        None
    }

    /// The number holds this value from now on.
    pub fn put(&mut self, number: u64, value: Value) -> Result<(), AllocError> {
        for entry in &mut self.set {
            if entry.0 == number {
                entry.1 = value;
                return Ok(());
            }
        }
        self.set.push((number, value))?;
        Ok(())
    }
}
