//! The rules that a unit keeps in each language, from the source to the last before flat code: on the names of its symbols, on its
//! objects, and on how much code and stack may become of it.
//!
//! `specs/Rules.antt` has them, over what naming needs of a unit and over the two bounds of its language. So a pass that keeps
//! names and raises neither bound keeps them, and owes nothing else.
#![tactic(auto)]

mod rules;

pub use rules::rules_kept;
