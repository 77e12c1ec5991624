//! The machine of an image.
//!
//! `load` gives the machine that is about to run an image: its segments and a zeroed stack as regions, at its entry
//! (System V gABI, chapter 5). `specs/Load.antt` says what that machine is, which images are refused, and what an image
//! does.
#![tactic(auto)]

mod fault;
mod loading;

pub use fault::LoadFault;
pub use loading::load;

#[cfg(test)]
mod tests;
