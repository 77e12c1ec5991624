//! What plain runs of linked units share, whatever their language: what names mean, values by their numbers, the blocks of locals, calls,
//! and the loop over steps. Tests of languages stand on it. A language brings its `Code` and its `Steps`; `graphs` has what languages of graphs share.
//!
//! These runs are plain and slow, and nothing is proved of what they come to: that each comes to what `mean` gives is tested.
#![tactic(auto)]

mod blocks;
pub mod graphs;
mod names;
mod running;
mod values;
mod world;

pub use names::Names;
pub use running::{Code, Ran, Steps, call, run};
pub use values::Values;
pub use world::{Begun, Frame, Turned, WRONG, World};
