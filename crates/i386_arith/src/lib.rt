//! Results and flags of the machine's operators on words of 32 bits (docs/machine.md). No call takes memory.
#![tactic(auto)]

#[cfg(test)]
mod cases;
mod division;
mod flags;
mod operators;
#[cfg(test)]
mod tests;

pub use division::{Division, divide, divide_signed};
pub use flags::{Flags, conditions_compare, holds};
pub use operators::{Computed, operate, shift};
