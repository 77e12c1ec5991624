// What calls compare: the types of results and parameters.
use sqlite_items::Items;

/// What a result's or parameter's type begins with. Other units compare structs by their tags.
#[derive(Drop)]
pub enum ValueBase {
    Int,
    Char,
    UnsignedInt,
    UnsignedChar,
    Void,
    /// The struct of this tag.
    Struct(Items<u8>),
}

/// The type of a result or of a parameter: as many pointers as there are stars.
#[derive(Drop)]
pub struct ValueType {
    pub base: ValueBase,
    pub stars: u32,
}

/// The type of a function. A result of type `void` is none.
#[derive(Drop)]
pub struct Signature {
    pub result: ValueType,
    pub parameters: Items<ValueType>,
}

/// What a unit declares of a symbol.
#[derive(Drop)]
pub enum Callee {
    Function(Signature),
    Object,
}
