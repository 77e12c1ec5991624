// The tree of a unit's text. Each node has the place of its token, in bytes from the text's start. Parentheses have no node.
use cc_base::Sequence;
use sqlite_items::{Boxed, Items};

/// A name where it stands.
#[derive(Drop)]
pub struct NameAt {
    pub at: u32,
    pub bytes: Items<u8>,
}

/// What a type begins with, without `const`. `signed` and `signed int` are `int`, and `signed char` is `char`.
#[derive(Drop)]
pub enum BaseKind {
    Int,
    Char,
    UnsignedInt,
    UnsignedChar,
    Void,
    /// The struct of this tag.
    Struct(Items<u8>),
}

/// What a type begins with. Its place is that of its last token.
#[derive(Drop)]
pub struct Base {
    pub at: u32,
    pub is_const: bool,
    pub kind: BaseKind,
}

/// A type as a cast or `sizeof` names it: pointers as deep as there are stars.
#[derive(Drop)]
pub struct TypeName {
    pub base: Base,
    pub stars: usize,
}

/// A number as it is written. It is unsigned where it has a suffix or is past the greatest `int`.
#[derive(Clone, Copy, Debug, PartialEq, Eq)]
pub struct Number {
    pub at: u32,
    pub value: u32,
    pub is_unsigned: bool,
}

#[derive(Clone, Copy, Debug, PartialEq, Eq)]
pub enum UnaryOp {
    /// `-`
    Neg,
    /// `~`
    Flip,
    /// `!`
    Not,
    /// `*`
    Deref,
    /// `&`
    Address,
}

#[derive(Clone, Copy, Debug, PartialEq, Eq)]
pub enum BinaryOp {
    OrOr,
    AndAnd,
    Or,
    Xor,
    And,
    Eq,
    Ne,
    Lt,
    Gt,
    Le,
    Ge,
    Shl,
    Shr,
    Add,
    Sub,
    Mul,
    Div,
    Rem,
}

/// An expression. The place of an index is that of `[`, of a member that of its name, of a cast that of `(`.
#[derive(Drop)]
pub enum Expr {
    Name(u32, Items<u8>),
    Number(u32, u32, bool),
    /// The byte of a character literal.
    Character(u32, u8),
    Unary(u32, UnaryOp, Boxed<Expr>),
    Binary(u32, BinaryOp, Boxed<Expr>, Boxed<Expr>),
    Cast(u32, TypeName, Boxed<Expr>),
    SizeofType(u32, TypeName),
    Sizeof(u32, Boxed<Expr>),
    Index(u32, Boxed<Expr>, Boxed<Expr>),
    /// `.`
    Member(u32, Boxed<Expr>, Items<u8>),
    /// `->`
    Arrow(u32, Boxed<Expr>, Items<u8>),
}

/// A call, with the place of its name.
#[derive(Drop)]
pub struct Call {
    pub name: NameAt,
    pub arguments: Items<Expr>,
}

/// The right side of an assignment.
#[derive(Drop)]
pub enum AssignedValue {
    Expr(Expr),
    Call(Call),
}

/// A statement without its `;`. The place of an assignment is that of `=`.
#[derive(Drop)]
pub enum Simple {
    Call(Call),
    Assign(u32, Expr, AssignedValue),
}

/// A statement. A body is the list of its statements.
#[cycle(statement)]
#[derive(Drop)]
pub enum Stmt {
    Empty(u32),
    Block(u32, Items<Stmt>),
    Simple(Simple),
    Return(u32, Option<Expr>),
    Break(u32),
    Continue(u32),
    /// The arms, and the block behind the last `else`.
    If(Items<Arm>, Option<Items<Stmt>>),
    While(u32, Expr, Items<Stmt>),
    Do(u32, Items<Stmt>, Expr),
    For(u32, Option<Simple>, Option<Expr>, Option<Simple>, Items<Stmt>),
}

/// One arm of an `if`, with the place of its `if`.
#[cycle(statement)]
#[derive(Drop)]
pub struct Arm {
    pub at: u32,
    pub test: Expr,
    pub body: Items<Stmt>,
}

/// What an object begins with. The place of a list is that of its `{`.
#[derive(Drop)]
pub enum Initialiser {
    Expr(Expr),
    /// The bytes of a string literal, without a closing zero.
    String(u32, Items<u8>),
    List(u32, Items<Initialiser>),
}

/// A name with what a declaration says of it: stars before it and array lengths behind it.
#[derive(Drop)]
pub struct Declarator {
    pub stars: usize,
    pub name: NameAt,
    /// Whether `[ ]` without a length stands before the lengths.
    pub is_open: bool,
    pub lengths: Items<Number>,
}

/// An initialiser behind `=`, with the place of `=`.
#[derive(Drop)]
pub struct Initialised {
    pub at: u32,
    pub value: Initialiser,
}

/// An object at file scope.
#[derive(Drop)]
pub struct ObjectItem {
    pub declarator: Declarator,
    pub initialised: Option<Initialised>,
}

/// Members of a struct that one declaration names.
#[derive(Drop)]
pub struct Members {
    pub base: Base,
    pub fields: Items<Declarator>,
}

/// A parameter, in a prototype maybe without name.
#[derive(Drop)]
pub struct Parameter {
    pub base: Base,
    pub stars: usize,
    pub name: Option<NameAt>,
}

/// An expression behind a local's `=`, with the place of `=`.
#[derive(Drop)]
pub struct LocalValue {
    pub at: u32,
    pub value: Expr,
}

/// A local of a function.
#[derive(Drop)]
pub struct LocalItem {
    pub declarator: Declarator,
    pub value: Option<LocalValue>,
}

/// Locals that one declaration names.
#[derive(Drop)]
pub struct Locals {
    pub is_register: bool,
    pub base: Base,
    pub items: Items<LocalItem>,
}

/// Whether other units see a name.
#[derive(Clone, Copy, Debug, PartialEq, Eq)]
pub enum Linkage {
    Plain,
    Static,
    Extern,
}

/// What a declaration says of a function.
#[derive(Drop)]
pub struct Head {
    pub linkage: Linkage,
    pub base: Base,
    pub stars: usize,
    pub name: NameAt,
    pub parameters: Items<Parameter>,
}

/// A declaration or definition at file scope.
#[derive(Drop)]
pub enum External {
    Struct(NameAt, Items<Members>),
    Objects(Linkage, Base, Items<ObjectItem>),
    Prototype(Head),
    Function(Head, Items<Locals>, Items<Stmt>),
}

/// The tree of a unit's text. Contracts see just the list of its external declarations.
pub type Tree = Sequence<External>;
