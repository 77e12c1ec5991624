//! Lists of numbers that are linked by index, and the hash of symbol names.
#![tactic(auto)]

mod chains;
mod hash;
#[cfg(test)]
mod tests;

pub use chains::Chains;
pub use hash::symbol_hash;
