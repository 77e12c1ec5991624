// The unit of the toy languages.
ghost use Rattle.std.specs.Prelude.{IfOk};
ghost use Rattle.pass_tests.specs.Toys.{IsCopy};

use cc_base::Bytes;
use std::alloc::{AllocError, Global};
use unit_names::Naming;

/// A unit whose code is bytes.
#[derive(Drop)]
pub struct ToyUnit {
    pub naming: Naming,
    pub bytes: Bytes,
}

impl ToyUnit {
    /// A copy.
    pub fn copied(&self, alloc: Global) -> Result<ToyUnit, AllocError>
        ensures { IfOk result (λ made. IsCopy self.now made) }
    {
        Ok(ToyUnit {
            naming: self.naming.copied(alloc)?,
            bytes: Bytes::from_slice(alloc, self.bytes.as_slice())?,
        })
    }
}
