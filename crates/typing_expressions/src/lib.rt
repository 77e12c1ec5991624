//! The types of expressions. `typed` tells which rules of `specs/Expressions.antt` an expression breaks, and gives the expression
//! of the typed unit that it is, where it breaks none. `assigned`, `test_of`, `target_of` and `valued` say what can be done with
//! such an expression; `text_place` gives its place in the text.
#![tactic(auto)]

mod access;
mod binary;
mod conversions;
mod judgement;
mod laws;
mod leaves;
mod node;
mod places;
mod typing;
mod unary;
mod uses;
mod valuing;

pub use conversions::{needed_size, size_fault};
pub use judgement::{Judgement, settled};
pub use laws::broken_expressions_have_no_type;
pub use node::{Form, Node, TypedValue};
pub use places::text_place;
pub use typing::typed;
pub use uses::{assigned, target_of, test_of};
pub use valuing::valued;
