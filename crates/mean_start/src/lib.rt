//! What linked units start with, as a program: why they are no program, what each symbol of each unit means, and memory as the
//! program starts. All of it is found by maps from names that are made once.
#![tactic(auto)]

mod callees;
mod faces;
mod faults;
mod firsts;
mod linkage;
mod memory;
mod names;
mod objects;
mod own;
mod shown;
mod small;
mod tables;
mod types;

pub use faults::fault_of;
pub use linkage::{Linkage, linkage_of};
pub use memory::start_memory;
pub use tables::{callees_by_unit, main_of, objects_by_unit};
