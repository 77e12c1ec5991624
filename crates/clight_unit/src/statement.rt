// Statements with their types decided.
use crate::expression::{Expression, Place, Test};
use block_mem::{Op, Width};
use sqlite_items::Items;

/// Where a value goes.
#[derive(Drop)]
pub enum Target {
    /// A parameter or `register` local, by its number.
    Temporary(u32),
    Place(Width, Place),
}

/// A value with its conversion to the type of where it goes: `Keep`, `LowSigned` or `LowUnsigned`.
#[derive(Drop)]
pub struct Value {
    pub conversion: Op,
    pub expression: Expression,
}

/// `target = value`.
#[derive(Drop)]
pub struct Assignment {
    pub target: Target,
    pub value: Value,
}

/// A call. Its arguments are converted to the types of the parameters that the unit declares.
#[derive(Drop)]
pub struct Call {
    /// Where the result goes, if it goes anywhere, and its conversion to the type there.
    pub target: Option<Target>,
    pub conversion: Op,
    /// The function's symbol.
    pub callee: u32,
    pub arguments: Items<Value>,
}

/// An assignment or a call.
#[derive(Drop)]
pub enum Simple {
    Assign(Assignment),
    Call(Call),
}

/// A statement. A body is the list of its statements.
#[cycle(statement)]
#[derive(Drop)]
pub enum Statement {
    /// `;`
    Empty,
    /// The initialiser of a local. These stand before the other statements of a function.
    Initialise(Assignment),
    Simple(Simple),
    Block(Items<Statement>),
    /// The arms, and the block behind the last `else`.
    If(Items<Arm>, Option<Items<Statement>>),
    While(Test, Items<Statement>),
    Do(Items<Statement>, Test),
    For(Option<Simple>, Option<Test>, Option<Simple>, Items<Statement>),
    Break,
    Continue,
    /// The value is converted to the type of the function's result.
    Return(Option<Value>),
}

/// One arm of an `if`.
#[cycle(statement)]
#[derive(Drop)]
pub struct Arm {
    pub test: Test,
    pub body: Items<Statement>,
}
