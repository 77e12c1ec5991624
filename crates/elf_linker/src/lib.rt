//! Linking (Intel386 supplement, chapter 4, relocation): an image from objects that were made one by one.
//!
//! - `Inputs` is the list of the objects, and `runtime_parts` the object that is linked behind them.
//! - `link` places their texts one behind the other, gives each name its one address, and relocates each word. What each
//!   address of the image then holds is said in `specs/Linked.antt`.
//! - Names that are defined twice, not at all, or with another size, and too much text, are refused (`specs/Names.antt`).
#![tactic(auto)]

mod addresses;
mod definitions;
mod fault;
mod inputs;
mod linking;
mod objects;
mod placement;
mod relocating;
mod runtime;
mod uses;

pub use fault::LinkFault;
pub use inputs::Inputs;
pub use linking::link;
pub use runtime::runtime_parts;
