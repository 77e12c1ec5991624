// What an object has, apart from how it stands in a file.
use cc_base::{Bytes, Name, Sequence};

/// What a symbol names (gABI, `st_info`, symbol types 0 to 4).
#[derive(Clone, Copy, Debug, PartialEq, Eq)]
pub enum SymbolKind {
    NoType,
    Object,
    Func,
    Section,
    File,
}

/// Where a symbol is defined (gABI, `st_shndx`): nowhere in this object, in a section with this number, or apart from
/// all sections.
#[derive(Clone, Copy, Debug, PartialEq, Eq)]
pub enum SymbolPlace {
    Undefined,
    At(u32),
    Absolute,
}

/// A symbol. A defined one has its place in its section as its value.
#[derive(Drop)]
pub struct SymbolPart {
    pub name: Name,
    pub local: bool,
    pub kind: SymbolKind,
    pub place: SymbolPlace,
    pub value: u32,
    pub size: u32,
}

/// What a section is kept as: not at all, as text, as read-only bytes, as writable bytes, or as zeroed bytes.
#[derive(Clone, Copy, Debug, PartialEq, Eq)]
pub enum KeptKind {
    Dropped,
    Text,
    Fixed,
    Held,
    Zeros,
}

/// How a relocation changes its word (Intel386 supplement, relocation types 1 and 2): by the symbol's address, or by
/// the distance to it.
#[derive(Clone, Copy, Debug, PartialEq, Eq)]
pub enum RelocKind {
    Abs,
    Rel,
}

/// A relocation: the section that it changes, the place of its word there, the number of its symbol in the symbol
/// table, where entry 0 counts, and how the word is changed.
#[derive(Clone, Copy, Debug, PartialEq, Eq)]
pub struct RelocPart {
    pub section: u32,
    pub offset: u32,
    pub symbol: u32,
    pub kind: RelocKind,
}

/// The symbols of an object in the order of its table, without entry 0.
pub type SymbolParts = Sequence<SymbolPart>;

/// The relocations of an object.
pub type RelocParts = Sequence<RelocPart>;

/// An object: its text, its read-only bytes, its writable bytes, how many zeroed bytes it has, its symbols and its
/// relocations.
#[derive(Drop)]
pub struct ObjectParts {
    pub text: Bytes,
    pub fixed: Bytes,
    pub held: Bytes,
    pub zeros: u32,
    pub symbols: SymbolParts,
    pub relocs: RelocParts,
}
