// Why a tree has no typed unit.

/// Which rule is broken. Where several are broken at one place, the first in this order is told.
#[derive(Clone, Copy, Debug, PartialEq, Eq, PartialOrd, Ord)]
pub enum TypeKind {
    Unknown,
    Twice,
    Kind,
    Count,
    NotPlace,
    Reserved,
    MainShape,
    Initialiser,
    Size,
    Params,
    Nodes,
}

/// A rule that is broken at a place.
#[derive(Clone, Copy, Debug, PartialEq, Eq)]
pub struct Row {
    pub kind: TypeKind,
    /// The place in bytes from the text's start.
    pub at: u32,
}
