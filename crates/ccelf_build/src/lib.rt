//! The one call that does all that the program does: it reads the words, does what they ask for (`commands`), and ends
//! as every command does. `specs/Promise.antt` says what it promises.
#![tactic(auto)]

mod finish;
mod laws;
mod top;

pub use commands::Status;
pub use top::ccelf;
