// What a text of the second form says.
use cc_base::{Name, Sequence};

/// A statement of a body.
#[derive(Drop)]
pub enum SmallStmt {
    /// `putbyte ( NUM ) ;` with this number, at most 2147483647.
    Put(u32),
    /// `ID ( ) ;` with this name.
    Call(Name),
    /// `return NUM ;` with this number, at most 2147483647.
    Return(u32),
}

/// The statements of a body. The last is a return, and no other is.
pub type SmallStmts = Sequence<SmallStmt>;

/// A function that is declared or defined.
#[derive(Drop)]
pub struct Item {
    /// Whether `static` stands before it.
    pub local: bool,
    /// The function's name.
    pub name: Name,
    /// The statements of a definition. A declaration has none.
    pub body: Option<SmallStmts>,
}

/// A unit of the second form: its items, in the order of the text.
pub type SecondForm = Sequence<Item>;
