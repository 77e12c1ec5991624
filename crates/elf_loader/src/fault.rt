// Why an image cannot be loaded.

ghost use Rattle.std.specs.Prelude.{◌≡◌};
ghost use Rattle.elf_loader.specs.declared.fault.LoadFault.TheVariants.{Memory};

use std::alloc::AllocError;

/// Why an image cannot be loaded.
#[derive(Clone, Copy, Debug, PartialEq, Eq)]
pub enum LoadFault {
    /// A segment leaves the addresses from 0x08048000 up to 0x09048000. It is counted from 0.
    Segment { index: u32 },
    /// No executable segment has the entry.
    Entry,
    /// There is not enough memory.
    Memory,
}

impl From<AllocError> for LoadFault {
    ghost from_gives = { λ _ e. e ≡ Memory };

    fn from(_e: AllocError) -> LoadFault {
        LoadFault::Memory
    }
}
