//! The whole text of a unit. `tokens` cuts it by longest match (`specs/Lexical.antt`, `specs/Scanning.antt`). `Tree` is the
//! tree of a unit's text, and `specs/Grammar.antt` says which tokens read as which tree.
#![tactic(auto)]

mod fault;
mod front;
mod grammar;
mod kind;
mod lexer;
mod spelling;
mod token_list;
mod tree;
mod values;

pub use fault::SyntaxFault;
pub use grammar::{one_tree, one_tree_of_an_expression};
pub use kind::{Kind, Level};
pub use lexer::{cut_in_one_way, tokens, tokens_are_lexemes};
pub use token_list::{Token, TokenKind, Tokens};
pub use tree::{
    Arm, AssignedValue, Base, BaseKind, BinaryOp, Call, Declarator, Expr, External, Head,
    Initialised, Initialiser, Linkage, LocalItem, LocalValue, Locals, Members, NameAt, Number,
    ObjectItem, Parameter, Simple, Stmt, Tree, TypeName, UnaryOp,
};
pub use values::{character_value, is_unsigned_number, number_value, string_value};
