// What is found of expressions.
use core_lang::Expression;
use sqlite_items::Items;

/// The value of an expression behind the statements that go before, and the first temporary that is free for what else is found
/// before the value is used.
#[derive(Drop)]
pub struct Operand {
    pub value: Expression,
    pub next: u32,
}

/// The values of arguments, and the first temporary that is free behind them.
#[derive(Drop)]
pub struct Operands {
    pub values: Items<Expression>,
    pub next: u32,
}
