//! The types of statements. `typed_statement` tells which rules of `specs/Statements.antt` a statement of a body breaks, and gives
//! the statement of the typed unit that it is, where it breaks none; `typed_body` does so for a list, and `typed_initialiser` for a
//! local that is initialised.
#![tactic(auto)]

mod assignments;
mod calls;
mod gathering;
mod laws;
mod parts;
mod statements;

pub use assignments::typed_initialiser;
pub use calls::Called;
pub use gathering::Gathered;
pub use laws::broken_bodies_are_not_typed;
pub use statements::{typed_body, typed_statement};
