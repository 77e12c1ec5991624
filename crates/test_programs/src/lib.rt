//! Whole programs that tests of several languages share: the texts of their units, their input, and what they come to by hand and by
//! `mean`. A language brings its `Target`, and `differing` compares.
#![tactic(auto)]

mod comparing;
mod programs;
mod source;
mod texts;

pub use comparing::{Target, differing};
pub use programs::{PROGRAMS, Program};
pub use source::{as_source, unit_of};
