//! Tests of the meaning of whole texts: what linked units come to within so many turns, what they emit and what they take, and of the
//! command that tells it. Turns are counted by hand.
#![tactic(auto)]

#[cfg(test)]
mod lines;
#[cfg(test)]
mod programs;
#[cfg(test)]
mod running;
#[cfg(test)]
mod turns;
