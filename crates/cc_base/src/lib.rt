//! What every crate of ccelf stands on.
//!
//! - The outside of the program (`Files`, `Source`, `Sink`) as contracts see it: told bytes and counts of what
//!   failed. Objects in memory tell their bytes; those over the host only count.
//! - How a run stands (`Outcome`) and what it does to the outside (`Act`).
//! - What a unit shows to the others (`Face`, `Globals`, `SymbolNames`), and when units are a program.
//! - Small lists that contracts see as lists, and numbers as text.
#![tactic(auto)]

mod face;
mod host;
mod in_memory;
mod number_text;
mod outside;
mod run;
mod sequence;
#[cfg(test)]
mod tests;

pub use face::{
    Def, Defs, Face, GlobalPart, Globals, SourceFault, SymbolName, SymbolNames, Uses, Wanted,
    WordUse, WordUses,
};
pub use host::{HostFiles, HostSink, HostSource};
pub use in_memory::{MemFiles, MemSink, MemSource};
pub use number_text::{NumberText, hex_text, word_text};
pub use outside::{FILE_LIMIT, Failed, Files, GetFault, GiveFault, PutFault, Sink, Source};
pub use run::{Act, Outcome};
pub use sequence::{Bytes, Calls, Name, Sequence, Text, Words32};
