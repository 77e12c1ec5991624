// Where an operand is.
use i386_code::Reg;

/// A register, or the address of memory.
#[derive(Clone, Copy)]
pub(crate) enum Place {
    Register(Reg),
    Memory(u32),
}
