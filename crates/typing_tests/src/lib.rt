//! Tests of the types of whole texts: what is told of those that break a rule, and the typed units of the others. Their expected
//! values are worked by hand.
#![tactic(auto)]

#[cfg(test)]
mod tables;
#[cfg(test)]
mod units;
