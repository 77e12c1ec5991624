//! The run of linked units, as a program: `run` takes their turns over a source and a sink as `clight_sem` defines them.
//! `evaluation`, `conditions` and `destinations` have the values and places of expressions, or None where those have none:
//! they take no memory but the list of a call's arguments, and recursion goes over the depth of an expression alone.
//!
//! What a call has still to do is a stack of places in lists of statements (`Left`), so a turn copies no statement.
#![tactic(auto)]

mod beginning;
mod calls;
mod conditions;
mod destinations;
mod evaluation;
mod frame;
mod giving;
mod item;
mod left;
mod memories;
mod process;
mod program;
mod running;
mod scene;
mod turn;

pub use beginning::begin;
pub use process::{Final, Pending, Process};
pub use program::Program;
pub use running::{MeanEnd, RunFault, run};
