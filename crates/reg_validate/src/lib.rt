//! The pass from Rtl to Ltl: each temporary gets a location, its home.
//!
//! `reg_homes` says what may be made of a function, and has the proof that it does the same. Here is the pass, which gives every
//! function the fixed homes.
#![tactic(auto)]

mod fixed;
mod functions;
mod laws;
mod pass;
mod placing;

pub use fixed::{fixed_home, fixed_homes, fixed_slots};
pub use functions::with_fixed_homes;
pub use laws::{lightens, moves, refines};
pub use pass::Allocate;
pub use placing::placed_graph;
