//! What names mean over linked units, in every language.
//!
//! `specs/Names.antt` has the definition, over one record of what a unit brings beside its code. A language that gives it of
//! its units is `Named`, and a pass that keeps it is `KeepsNames`: then every name means the same before and behind it.
//! `Naming` is that part of a unit in the languages below the source, which a pass copies as it is.
#![tactic(auto)]

mod kept;
mod meaning;
mod naming;

pub use kept::{KeepsNames, Named, names_kept};
pub use meaning::Meaning;
pub use naming::Naming;
