//! What linked units of the source mean: the definition that everything below the source is measured by.
//!
//! `specs/Values.antt` has the value and the place of an expression, `specs/Functions.antt` what names mean over the linked
//! units, `specs/States.antt` how a run stands, `specs/Turns.antt` what each turn does, `specs/Prices.antt` what it may cost
//! below, and `specs/Bounds.antt` how much code and stack a unit may come to. `docs/source-language.md` says the same in words.
#![tactic(auto)]

mod destination;
mod language;

pub use destination::Destination;
pub use language::{Clight, source_runs_grow};
