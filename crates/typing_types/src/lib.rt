//! C's types, of the subset: what a declaration says (`CType`), sizes and the places of members (`Layout`), which operands
//! an operator takes and what type it gives (`fit_of`, `result_of`), what is cast and assigned (`casts`, `assigns`), and which
//! operator of block memory is meant and how an object of a type is read, written and converted to (`on_integers`, `width_of`).
//! Types are compared and copied in place: the lengths of an array are those that stand in the tree.
#![tactic(auto)]

mod class;
mod conversion;
mod ctype;
mod layout;
mod meant;
mod operator;
mod same;
mod sizes;

pub use class::{Base, Class, Integer};
pub use conversion::{assigns, casts};
pub use ctype::{CType, stars_of};
pub use layout::{LARGEST, Layout, Size};
pub use meant::{
    compared_pointers, conversion_to, not_of, on_integers, on_pointer, test_of, width_of,
};
pub use operator::{Fit, Operand, fit_of, int, result_of};
pub use same::same_types_are_one;
