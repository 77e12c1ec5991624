//! Rows of bits.
#![tactic(auto)]

mod rows;
#[cfg(test)]
mod tests;
mod words;

pub use rows::BitRows;
