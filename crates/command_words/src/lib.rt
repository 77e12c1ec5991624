//! Which words ask for which command.
#![tactic(auto)]

mod names;
#[cfg(test)]
mod tests;
mod words;

pub use words::{Order, read};
