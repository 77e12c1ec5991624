//! The types of a unit. `check` answers the typed unit of a tree exactly where the tree breaks no rule of `specs/Walk.antt`, and else
//! the rule that is broken at the least place. A unit is walked once, from its first declaration to its last.
#![tactic(auto)]

mod checking;
mod faces;
mod objects;
mod parts;
mod walk;
mod walking;

pub use checking::{TypeFault, check};
pub use typing_faults::TypeKind;
