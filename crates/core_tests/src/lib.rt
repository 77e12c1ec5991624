//! Tests of Core: linked units of it run as programs, row by row as `core_lang` has its meaning, and what `CoreGen` makes of whole
//! texts emits and ends as the texts do by `mean` and by hand.
#![tactic(auto)]

#[cfg(test)]
mod addresses;
#[cfg(test)]
mod code;
#[cfg(test)]
mod expressions;
#[cfg(test)]
mod programs;
#[cfg(test)]
mod steps;
