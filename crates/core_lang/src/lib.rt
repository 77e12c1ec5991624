//! Core: expressions without `&&` and `||`, and statements with one kind of loop that is left by number.
//!
//! `src/syntax.rt` has its syntax. `specs/Meaning.antt` has the value of an expression, how a run stands, and what each step
//! does; `specs/Prices.antt` what a step may cost below; `specs/Units.antt` what linked units do; and `specs/laws/` what
//! follows from these.
#![tactic(auto)]

mod language;
mod syntax;

pub use language::Core;
pub use syntax::{CoreUnit, Ending, Expression, Function, Statement};
