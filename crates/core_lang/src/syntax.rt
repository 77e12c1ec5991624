// The syntax of Core.
use block_mem::{Op, Width};
use sqlite_items::{Boxed, Items};
use unit_names::Naming;

/// An expression. It changes nothing, and has a value or goes wrong.
#[derive(Drop)]
pub enum Expression {
    Constant(u32),
    /// What the temporary of this number holds.
    Temporary(u32),
    /// The address of the object of the symbol of this number, so many bytes behind its start.
    Address(u32, u32),
    /// The address of the local of this number among those that are blocks.
    Local(u32),
    /// What stands at an address, read at this width.
    Load(Width, Boxed<Expression>),
    /// An operator whose right operand is 0.
    Unary(Op, Boxed<Expression>),
    Binary(Op, Boxed<Expression>, Boxed<Expression>),
}

/// A statement. A sequence is a list of statements.
#[derive(Drop)]
pub enum Statement {
    /// The temporary of this number gets a value.
    Set(u32, Expression),
    /// A store at this width: the address, then the value.
    Store(Width, Expression, Expression),
    /// A call of the symbol's function. The result goes to a temporary, if anywhere.
    Call(Option<u32>, u32, Items<Expression>),
    /// The first list where the value is not 0, else the second.
    If(Expression, Items<Statement>, Items<Statement>),
    /// The list again and again.
    Loop(Items<Statement>),
    /// What `Exit` leaves.
    Block(Items<Statement>),
    /// Leaves the innermost block at 0, and one block more for each number above.
    Exit(u32),
    Return(Option<Expression>),
}

/// What a function does where nothing is left of its body.
#[derive(Clone, Copy)]
pub enum Ending {
    /// It returns without a value.
    Bare,
    /// It returns 0.
    Zero,
    /// It goes wrong.
    Stuck,
}

/// A function's definition.
#[derive(Drop)]
pub struct Function {
    /// Its symbol.
    pub symbol: u32,
    /// Other units do not see it.
    pub is_static: bool,
    /// Its parameters are the first temporaries.
    pub parameters: u32,
    /// The sizes in bytes of its locals that are blocks.
    pub locals: Items<u32>,
    pub body: Items<Statement>,
    pub ending: Ending,
    /// The stack that a call of it needs, in bytes.
    pub need: u32,
}

/// A unit.
#[derive(Drop)]
pub struct CoreUnit {
    /// What it shows to other units, its symbols and its objects.
    pub naming: Naming,
    /// Its functions, in the order of their definitions.
    pub functions: Items<Function>,
}
