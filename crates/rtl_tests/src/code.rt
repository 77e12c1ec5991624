// The code of linked units.
use rtl_lang::{RtlFn, RtlUnit};

/// Linked units of Rtl.
#[derive(Drop)]
pub(crate) struct RtlCode<'u> {
    pub(crate) units: &'u [RtlUnit],
}

impl<'u> RtlCode<'u> {
    /// The function of this number in the unit of this number, if there is one.
    pub(crate) fn function(&self, unit: u32, index: u32) -> Option<&'u RtlFn> {
        self.units.get(unit as usize)?.functions.get(index as usize)
    }
}
