// What a type begins with, and what it is.

/// An integer type. `char` is signed, and one type with `signed char`.
#[derive(Clone, Copy, Debug, PartialEq, Eq)]
pub enum Integer {
    Char,
    UnsignedChar,
    Int,
    UnsignedInt,
}

/// What a type begins with.
#[derive(Clone, Copy, Debug, PartialEq, Eq)]
pub enum Base {
    Integer(Integer),
    Void,
    /// The struct of the tag of this number.
    Struct(u32),
}

/// What a type is.
#[derive(Clone, Copy, Debug, PartialEq, Eq)]
pub enum Class {
    Integer(Integer),
    Void,
    /// The struct of the tag of this number.
    Struct(u32),
    Pointer,
    Array,
}

/// The outermost length of an array.
#[derive(Clone, Copy, Debug, PartialEq, Eq)]
pub(crate) enum Extent {
    /// There is no array.
    Absent,
    Unknown,
    Known(u32),
}
