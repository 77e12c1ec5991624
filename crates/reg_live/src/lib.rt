//! The temporaries of a function of Rtl that are live after each node, exactly.
//!
//! Rows of bits, one for each place, start clear. A sweep goes over the places and adds to each row what the nodes that follow read,
//! and what is in their rows and they do not write. So each bit stands for a walk that reads the temporary; and when a sweep changes
//! nothing, the rows are closed and have all that is live.
#![tactic(auto)]

mod flows;
mod lives;
mod sweeps;
#[cfg(test)]
mod tests;

pub use lives::{Lives, live};
