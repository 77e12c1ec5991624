//! The instructions of the machine, both ways: `decode` from bytes, `encode` to bytes (docs/machine.md).
//!
//! - Contracts speak of spellings: `Spells` in specs/Spelling.antt, over the table in specs/Table.antt and the operands'
//!   forms in specs/Operands.antt.
//! - `decode` takes every spelling; `encode` chooses one for each proper instruction. Neither takes memory.
#![tactic(auto)]

mod code;
mod decoder;
mod encoder;
#[cfg(test)]
mod encodings;
mod instr;
mod operand;
mod proper;
mod rows;
#[cfg(test)]
mod tests;

pub use code::Code;
pub use decoder::{decode, decode_encoded, spellings_end};
pub use encoder::encode;
pub use instr::{Address, AluOp, Cond, Decoded, Instr, Reg, Rm, Scaled, ShiftOp};
pub use operand::sign_extended;
pub use proper::is_proper;
