// What an expression is.
use clight_unit::{Expression, Place};
use typing_types::{CType, Operand};

/// What an expression is in the typed unit.
#[derive(Drop)]
pub enum Form {
    /// A value and nothing more.
    Value(Expression),
    /// The parameter or `register` local of this number. It can be assigned to and has no address.
    Temporary(u32),
    /// A part of a block.
    Place(Place),
}

/// An expression that breaks no rule.
#[derive(Drop)]
pub struct Node<'t> {
    pub ctype: CType<'t>,
    /// It is the literal 0.
    pub is_null: bool,
    pub form: Form,
}

/// An expression where its value is asked for. An array stands here as a pointer to its first element.
#[derive(Drop)]
pub struct TypedValue<'t> {
    pub operand: Operand<'t>,
    pub expression: Expression,
}
