//! The objects of units of the second form, and that an image in which they are linked does what the units mean.
//!
//! `unit_object` compiles the tree of a text alone: it gives the file of its object. `specs/Parts.antt` says what that object holds,
//! `specs/LinkedObjects.antt` which objects an image is linked from. The theorem is the contract of
//! `linked_units_refine`: what such an image does on any input refines what the linked units mean. On the way
//! `specs/Placed.antt` and `specs/LinkedUnits.antt` say what the image holds.
#![tactic(auto)]

mod calls;
mod definitions;
mod names;
mod objects;
mod parts;
mod refining;
mod relocs;
mod symbols;
mod text;
mod weights;

pub use objects::unit_object;
pub use parts::object_parts;
pub use refining::{
    link_faults_are_source_faults, linked_units_are_linkable, linked_units_load,
    linked_units_refine, two_units_are_linked,
};
pub use weights::is_light;
