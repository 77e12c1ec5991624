//! Tests that cross crates: the whole program over files, input and output in memory, and units that are compiled, linked
//! and run. Their expected values are worked by hand.
#![tactic(auto)]

#[cfg(test)]
mod linking;
#[cfg(test)]
mod program;
