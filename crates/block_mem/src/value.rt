// Names of blocks, values, and what a block holds.

/// The name of a block. A name is never used again.
#[derive(Clone, Copy, Debug, PartialEq, Eq, Hash)]
pub enum BlockName {
    /// An object of file scope: the number of its unit in the program, and its number in the unit.
    Global { unit: u32, index: u32 },
    /// A local object: the number of its activation, counted from 0 in the order of the calls, and its number there.
    Local { activation: u64, index: u32 },
}

/// A value of the source. Null is the integer 0.
#[derive(Clone, Copy, Debug, PartialEq, Eq)]
pub enum Value {
    /// An integer of 32 bits; a negative one is its two's complement.
    Int(u32),
    /// A pointer to a place in a block.
    Ptr { block: BlockName, offset: u32 },
}

/// What one byte of a block holds.
#[derive(Clone, Copy, Debug, PartialEq, Eq)]
pub enum Byte {
    /// Nothing was stored there yet.
    Unset,
    /// A byte of an integer.
    Plain(u8),
    /// One of the four parts of a pointer, counted from 0 at the lowest address.
    Part {
        block: BlockName,
        offset: u32,
        which: u8,
    },
}

/// How a place is read and written.
#[derive(Clone, Copy, Debug, PartialEq, Eq)]
pub enum Width {
    /// A byte that stands for -128 to 127.
    Signed8,
    /// A byte that stands for 0 to 255.
    Unsigned8,
    /// Four bytes of an integer, the lowest first.
    Word,
    /// Four parts of a pointer, or null.
    Pointer,
}
