//! Ltl: Rtl with a location, a register or a slot of the frame, in place of each temporary.
//!
//! `src/syntax.rt` has its syntax, and `src/location.rt` locations. `specs/Meaning.antt` has how a run stands and what each node does;
//! `specs/Ranges.antt` what numbers a function may name; `specs/Prices.antt` what a node may cost below; `specs/Bounds.antt` bounds
//! of code and stack; `specs/Units.antt` what linked units do; and `specs/laws/` what follows from these.
#![tactic(auto)]

mod language;
mod location;
mod syntax;

pub use language::{Ltl, LtlUnit};
pub use location::Loc;
pub use syntax::{LtlFn, LtlNode, LtlParts};
