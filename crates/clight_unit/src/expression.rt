// Expressions and places with their types decided.
use block_mem::{Element, Op, Width};
use sqlite_items::Boxed;

/// An expression. It changes nothing, and has a value or goes wrong.
#[cycle(expression)]
#[derive(Drop)]
pub enum Expression {
    /// A number, a character or a size.
    Constant(u32),
    /// The parameter or `register` local of this number: parameters come first, in their order.
    Temporary(u32),
    /// What a place holds.
    Load(Width, Boxed<Place>),
    /// A place of array type as a value: a pointer to its first element.
    Decayed(Boxed<Place>),
    /// `&`.
    Address(Boxed<Place>),
    /// `-`, `~`, `!` or a cast.
    Unary(Op, Boxed<Expression>),
    /// A binary operator other than `&&` and `||`. Where a pointer is moved it stands at the left.
    Binary(Op, Boxed<Expression>, Boxed<Expression>),
    /// `&&`. The second is asked only where the first is not 0.
    Both(Boxed<Test>, Boxed<Test>),
    /// `||`. The second is asked only where the first is 0.
    Either(Boxed<Test>, Boxed<Test>),
}

/// Whether a value counts as true: an integer where it is not 0, a pointer where it is not null.
#[cycle(expression)]
#[derive(Drop)]
pub struct Test {
    /// `Ne` for an integer and `PtrNe` for a pointer. Its right operand is 0.
    pub differs: Op,
    pub value: Expression,
}

/// What names a part of a block.
#[cycle(expression)]
#[derive(Drop)]
pub enum Place {
    /// The object of the symbol of this number.
    Object(u32),
    /// The local of this number among those that are blocks.
    Local(u32),
    /// `*e`.
    Deref(Boxed<Expression>),
    /// `e[i]`.
    Index(Element, Boxed<Expression>, Boxed<Expression>),
    /// `e.m`, where the member has this offset.
    Member(u32, Boxed<Place>),
    /// `e->m`, where the member has this offset.
    Arrow(u32, Boxed<Expression>),
}
