//! Locations for the temporaries of a function: registers by the degrees of what is live together, and slots.
//!
//! Temporaries that are live together are neighbours. One with fewer than four neighbours always finds a register, whatever they
//! have, so such ones are taken first, one after the other, and each takes its own part out of the degrees of its neighbours. Where none is
//! left with fewer than four, any is taken. The locations are then given in the other direction, from the one that was taken last.
#![tactic(auto)]

mod assignment;
mod homes;
mod meetings;
mod order;

pub use assignment::{Assignment, assign};
