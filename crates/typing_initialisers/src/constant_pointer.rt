// What constant pointers come to.

/// So many bytes behind the beginning of a symbol's object.
#[derive(Clone, Copy, Debug, PartialEq, Eq)]
pub struct Address {
    /// The symbol's number.
    pub symbol: u32,
    pub plus: u32,
}

/// A constant pointer.
#[derive(Clone, Copy, Debug, PartialEq, Eq)]
pub enum ConstantPointer {
    Null,
    At(Address),
}
