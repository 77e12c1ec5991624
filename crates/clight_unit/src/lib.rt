//! A typed unit: its functions with every type decided, its objects with their first bytes, and what it shows to other
//! units. Nothing above types anything again: an operator says at which types it works, an access says how wide it is,
//! an element's size and a member's offset are numbers.
//!
//! An expression has one node for each node of the source's expression, but for `Load` and `Decayed`, which say how a
//! place is read. A conversion of a value to its target's type is no node of it and stands beside it.
#![tactic(auto)]

mod expression;
mod function;
mod signature;
mod statement;
#[cfg(test)]
mod tests;
mod unit;

pub use expression::{Expression, Place, Test};
pub use function::Function;
pub use signature::{Callee, Signature, ValueBase, ValueType};
pub use statement::{Arm, Assignment, Call, Simple, Statement, Target, Value};
pub use unit::ClightUnit;
