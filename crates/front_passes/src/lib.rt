//! The passes so far as one, from the source's typed units to Rtl.
#![tactic(auto)]

mod laws;
mod passes;

pub use laws::{keeps_faces, keeps_names, lightens, refines};
pub use passes::{ToRtl, front};
