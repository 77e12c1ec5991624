// The code of linked units.
use ltl_lang::{LtlFn, LtlUnit};

/// Linked units of Ltl.
#[derive(Drop)]
pub(crate) struct LtlCode<'u> {
    pub(crate) units: &'u [LtlUnit],
}

impl<'u> LtlCode<'u> {
    /// The function of this number in the unit of this number, if there is one.
    pub(crate) fn function(&self, unit: u32, index: u32) -> Option<&'u LtlFn> {
        self.units.get(unit as usize)?.functions.get(index as usize)
    }
}
