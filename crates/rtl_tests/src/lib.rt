//! Tests of Rtl: linked units of it run as programs, row by row as `rtl_lang` has its meaning, and what the passes up to Rtl make of
//! whole texts emits and ends as the texts do by `mean` and by hand.
#![tactic(auto)]

#[cfg(test)]
mod code;
#[cfg(test)]
mod programs;
#[cfg(test)]
mod steps;
