//! The machine: regions of memory, eight registers, four flags, and steps by the instructions of `i386_code`
//! (docs/machine.md).
#![tactic(auto)]

#[cfg(test)]
mod cases;
mod event;
mod known;
mod machine;
mod memory;
mod operand;
mod running;
#[cfg(test)]
mod tests;

pub use event::{Cause, Event, RunEnd, Standing};
pub use i386_code::Reg;
pub use machine::Machine;
pub use running::run;
