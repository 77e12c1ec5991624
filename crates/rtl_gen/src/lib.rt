//! The pass from Core to Rtl: from trees to graphs.
//!
//! `specs/Translation.antt` has the graph that is made of a function, as data of `specs/Trees.antt`, and `specs/Units.antt` that of
//! units. `specs/Relation.antt` says when a run of Rtl stands as one of Core does, and `specs/laws/` has the proofs that each turn
//! of Core is met. The program computes the translation.
#![tactic(auto)]

mod arguments;
mod expressions;
mod extents;
mod functions;
mod laws;
mod pass;
mod statements;
mod units;

pub use functions::rtl_function;
pub use laws::{lightens, moves, refines};
pub use pass::RtlGen;
pub use units::rtl_unit;
