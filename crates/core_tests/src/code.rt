// The code of linked units, and what an active call has still to do.
use core_lang::{CoreUnit, Ending, Function, Statement};
use std::alloc::AllocError;

/// Linked units of Core.
#[derive(Drop)]
pub(crate) struct CoreCode<'u> {
    pub(crate) units: &'u [CoreUnit],
}

impl<'u> CoreCode<'u> {
    /// The function of this number in the unit of this number, if there is one.
    pub(crate) fn function(&self, unit: u32, index: u32) -> Option<&'u Function> {
        self.units.get(unit as usize)?.functions.get(index as usize)
    }
}

/// What a call has still to do.
#[derive(Clone, Copy)]
pub(crate) enum Item<'u> {
    Do(&'u Statement),
    /// The end of a block.
    End,
}

/// What an active call runs.
#[derive(Drop)]
pub(crate) struct Activity<'u> {
    pub(crate) ending: Ending,
    /// What it has still to do, the first item last.
    pub(crate) left: Vec<Item<'u>>,
}

impl<'u> Activity<'u> {
    /// Puts statements before what is left.
    pub(crate) fn put_all(&mut self, statements: &'u [Statement]) -> Result<(), AllocError> {
        for statement in statements.iter().rev() {
            self.left.push(Item::Do(statement))?;
        }
        Ok(())
    }

    /// Puts a body, and then an item, before what is left.
    pub(crate) fn put(
        &mut self,
        body: &'u [Statement],
        behind: Item<'u>,
    ) -> Result<(), AllocError> {
        self.left.push(behind)?;
        self.put_all(body)
    }

    // Drops what is left up to and with the nearest end of a block.
    fn leave_one(&mut self) {
        for _ in 0..self.left.len() {
            if let Some(Item::End) = self.left.pop() {
                return;
            }
        }
    }

    /// Leaves so many blocks and one more.
    pub(crate) fn leave(&mut self, more: u32) {
        for _ in 0..more {
            self.leave_one();
        }
        self.leave_one();
    }
}
