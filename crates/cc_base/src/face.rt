// What a unit shows to the others, in every language: its face, its objects and the names of its symbols.

use crate::sequence::{Bytes, Name, Sequence};

/// What a unit defines and uses under names that other units see. Static names are not in it. Both lists stand in the
/// order of the unit's symbols.
#[derive(Drop)]
pub struct Face {
    pub defs: Defs,
    pub uses: Uses,
}

/// A definition that other units see.
#[derive(Drop)]
pub struct Def {
    pub name: Name,
    /// A function, or else an object.
    pub function: bool,
    /// The size of an object in bytes, and 0 of a function.
    pub size: u32,
    /// The stack that a function needs in bytes, and 0 of an object.
    pub need: u32,
}

/// Definitions, in their order.
pub type Defs = Sequence<Def>;

/// A name that the unit does not define and that stands in a body or an initialiser outside `sizeof`, or one that it
/// shares.
#[derive(Drop)]
pub struct Wanted {
    pub name: Name,
    /// The size in bytes that the unit states, and 0 where it states none.
    pub stated: u32,
    /// The unit shares the name: it declares an object tentatively and does not define it.
    pub shared: bool,
}

/// Uses, in their order.
pub type Uses = Sequence<Wanted>;

/// An object of file scope.
#[derive(Drop)]
pub struct GlobalPart {
    pub name: Name,
    /// Other units do not see it.
    pub local: bool,
    pub writable: bool,
    /// Its size in bytes.
    pub size: u32,
    /// Its alignment in bytes.
    pub align: u32,
    /// Its first bytes, at most as many as its size. The others are zero.
    pub bytes: Bytes,
    /// Its words that are pointers at first. They lie inside, at multiples of four, and do not overlap.
    pub uses: WordUses,
    /// It is shared: defined in no unit, it is one object with those of the same name in other units.
    pub shared: bool,
}

/// A unit's objects of file scope, in the order of their numbers.
pub type Globals = Sequence<GlobalPart>;

/// A word of an object that is a pointer at first: `plus` bytes behind the object of a name.
#[derive(Drop)]
pub struct WordUse {
    pub offset: u32,
    pub name: Name,
    pub plus: u32,
}

/// Initial pointers, in their order.
pub type WordUses = Sequence<WordUse>;

/// The name of a symbol.
#[derive(Drop)]
pub struct SymbolName {
    pub name: Name,
    /// Other units do not see it.
    pub local: bool,
}

/// The names of a unit's symbols in their order, static functions included, without the first, empty symbol.
pub type SymbolNames = Sequence<SymbolName>;

/// Why units are no program. Units are counted from 0. `index` is that of the unit's definitions for Doubled, and else
/// that of its uses.
#[derive(Clone, Copy, Debug, PartialEq, Eq)]
pub enum SourceFault {
    /// An earlier definition has the same name.
    Doubled {
        unit: u32,
        index: u32,
    },
    /// A used name has no definition, and no unit shares it. A missing `main` has the number of units as its unit.
    Unresolved {
        unit: u32,
        index: u32,
    },
    /// An object's size is another one than the unit states.
    Sized {
        unit: u32,
        index: u32,
        stated: u32,
        defined: u32,
    },
}
