//! The canonical text of a tree: `print` (`specs/Canonical.antt`).
//!
//! The tree gives its canonical tokens, which are then written out with single spaces between them. Lists are written in
//! loops; what recursion there is goes down the nesting of the tree, which the limits of a text bound.
#![tactic(auto)]

mod declarations;
mod expressions;
mod externals;
mod initialisers;
mod laws;
mod pieces;
mod printing;
mod signs;
mod statements;
mod types;
mod writing;

pub use laws::{canonical_text_is_cut, canonical_tokens_read_back, printed_text_parses_back};
pub use printing::print;
