//! Object files as they are written and read: ELF of 32 bits for the i386, of type ET_REL (System V gABI, chapter 4;
//! Intel386 supplement, chapter 4).
//!
//! - `ObjectParts` is what an object has: the contents of its sections, its symbols and its relocations.
//! - `write_object` gives the one file that is written for such parts.
//! - `read_object` gives a view of such a file, which copies nothing, and refuses every other one.
#![tactic(auto)]

mod bytes;
mod fault;
mod fields;
mod image;
mod image_file;
mod image_headers;
mod image_read;
mod image_view;
mod layout;
mod parts;
mod read;
mod view;
mod write;

pub use fault::ElfFault;
pub use image::{END_ADDRESS, FILE_ADDRESS, FIRST_ADDRESS, ImageParts, SegmentPart, SegmentParts};
pub use image_file::{image_has_one_file, write_image};
pub use image_view::{ImageView, image_has_one_meaning, read_image};
pub use parts::{
    KeptKind, ObjectParts, RelocKind, RelocPart, RelocParts, SymbolKind, SymbolPart, SymbolParts,
    SymbolPlace,
};
pub use view::{ObjectView, object_has_one_meaning, read_object};
pub use write::{has_one_file, write_object};

#[cfg(test)]
mod image_tests;
#[cfg(test)]
mod tests;
