//! Toy languages and passes, by which the laws of passes are tried: what they ask for is met, and what they give is used. They
//! are a crate of their own, since a crate with tests is proved twice.
#![tactic(auto)]

mod languages;
mod laws;
mod passes;
#[cfg(test)]
mod tests;
mod unit;

pub use languages::{Cheap, Dear, Slow};
pub use laws::{Both, greeting_is_a_program, greeting_is_kept, toys_are_kept};
pub use passes::{HurryUp, SlowDown};
pub use unit::ToyUnit;
