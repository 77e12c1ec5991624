//! The symbols of a unit, read off its tree before anything is typed: which names of file scope there are, and in which order
//! they stand in the symbol table of the unit's object.
//!
//! `sights` lists where the text names what it declares at file scope or what another unit defines, in the order of the text
//! and apart from names that a parameter or a local hides (C11, 6.2.1). `Symbols` has the static definitions, and then the
//! other definitions and the names that are used and not defined; each is numbered by its place (gABI, "Symbol Table": local
//! symbols precede the others). Both take time linear in the tree.
#![tactic(auto)]

mod declarations;
mod expressions;
mod finding;
mod known;
mod names;
mod sight;
mod statements;
mod table;

pub use declarations::sights;
pub use finding::symbols;
pub use known::{Known, Role};
pub use names::Names;
pub use sight::{How, Sight, Sights};
pub use table::Symbols;
