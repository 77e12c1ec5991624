//! Tests of Ltl: linked units of it run as programs, row by row as `ltl_lang` has its meaning, and what the passes up to Ltl make of
//! whole texts emits and ends as the texts do by `mean` and by hand.
#![tactic(auto)]

#[cfg(test)]
mod code;
#[cfg(test)]
mod programs;
#[cfg(test)]
mod steps;
