//! What names mean at a place of a unit. `Scope` is what stands before the place, as far as names and types ask for it
//! (`specs/Visible.antt`); `specs/Names.antt` has the meanings, and `specs/Growth.antt` how they grow from place to place. Each
//! look-up is one in a map.
#![tactic(auto)]

mod entity;
mod growth;
mod scope;
mod table;

pub use entity::{Declared, Entity, Member, Prototype};
pub use scope::Scope;
pub use table::Table;
