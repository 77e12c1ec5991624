// Functions with their types decided.
use crate::signature::Signature;
use crate::statement::Statement;
use sqlite_items::Items;

/// A function's definition.
#[derive(Drop)]
pub struct Function {
    /// Its symbol.
    pub symbol: u32,
    /// Other units do not see it.
    pub is_static: bool,
    pub signature: Signature,
    /// How many of its locals are `register`. They are numbered behind the parameters, in their order.
    pub registers: u32,
    /// The sizes of its other locals in bytes, in their order. Each is a block while a call of the function is active.
    pub locals: Items<u32>,
    pub body: Items<Statement>,
    /// Its nodes, which bound the size of its code.
    pub nodes: u32,
    /// The stack that a call of it needs, in bytes.
    pub need: u32,
}
