// Why objects cannot be linked.

ghost use Rattle.std.specs.Prelude.{◌≡◌};
ghost use Rattle.elf_linker.specs.declared.fault.LinkFault.TheVariants.{Memory};

use std::alloc::AllocError;
use thiserror::Error;

/// Why objects cannot be linked. Objects are counted from 0 in their order, and the runtime's object has the number
/// after the last. Symbols are counted in the order of their table, where entry 0 counts.
#[derive(Clone, Copy, Debug, PartialEq, Eq, Error)]
pub enum LinkFault {
    /// The symbol defines a name that an earlier one defines too.
    #[error("a name is defined twice")]
    Doubled {
        object: u32,
        symbol: u32,
    },
    /// The symbol uses a name that no object defines.
    #[error("a name is not defined")]
    Unresolved {
        object: u32,
        symbol: u32,
    },
    /// The symbol states another size in bytes than the object has that it names.
    #[error("an object has another size than is stated")]
    Sized {
        object: u32,
        symbol: u32,
        stated: u32,
        defined: u32,
    },
    /// The sections end at this address, which is above 0x09048000.
    #[error("the image has too many bytes")]
    Range {
        end: u64,
    },
    /// There is not enough memory.
    #[error("there is not enough memory")]
    Memory,
}

impl From<AllocError> for LinkFault {
    ghost from_gives = { λ _ e. e ≡ Memory };

    fn from(_e: AllocError) -> LinkFault {
        LinkFault::Memory
    }
}
