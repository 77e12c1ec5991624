//! The rows that a unit's text breaks, and the one of them that is told.
#![tactic(auto)]

mod fault;
mod faults;

pub use fault::{Row, TypeKind};
pub use faults::Faults;
