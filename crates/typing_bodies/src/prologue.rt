// What the locals of a function come to.
use clight_unit::Statement;
use sqlite_items::Items;
use typing_declarations::Frame;
use typing_statements::Gathered;

/// What the locals of a function come to.
#[derive(Drop)]
pub struct Prologue {
    pub frame: Frame,
    /// The sizes of those that are blocks in bytes, in their order.
    pub sizes: Items<u32>,
    /// Their initialisers, in their order. None where one of them breaks a rule.
    pub values: Gathered<Statement>,
}
