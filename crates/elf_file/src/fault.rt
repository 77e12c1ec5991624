//! Why a file is no object.

ghost use Rattle.std.specs.Prelude.{◌≡◌};
ghost use Rattle.elf_file.specs.declared.fault.ElfFault.TheVariants.{Memory};

use std::alloc::AllocError;

/// Why a file cannot be read.
#[derive(Clone, Copy, Debug, PartialEq, Eq)]
pub enum ElfFault {
    /// It is not the file that is written for an object of text alone.
    Form,
    /// There is not enough memory to check it.
    Memory,
}

impl From<AllocError> for ElfFault {
    ghost from_gives = { λ _ e. e ≡ Memory };

    fn from(_e: AllocError) -> ElfFault {
        ElfFault::Memory
    }
}
