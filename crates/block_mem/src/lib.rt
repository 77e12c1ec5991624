//! Memory in named blocks, and the operators on values.
//!
//! A program's memory is a set of blocks, each under a name of its own. A pointer is a block's name and an offset, so
//! one object can never be reached from a pointer to another. Loads and stores (`Memory::load`, `Memory::store`) and
//! operators (`Memory::apply`) answer None exactly where the source's rules give no value.
#![tactic(auto)]

mod access;
mod cells;
mod memory;
mod operator;
mod quads;
#[cfg(test)]
mod tests;
mod value;

pub use memory::Memory;
pub use operator::{Element, Op, on_word, on_words};
pub use value::{BlockName, Byte, Value, Width};
