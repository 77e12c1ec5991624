//! Tests of the second form: which trees are of it, what its objects hold, and what programs come to by a plain interpreter. They are a
//! crate of their own, since a crate with tests is proved twice.
#![tactic(auto)]

#[cfg(test)]
mod forms;
#[cfg(test)]
mod objects;
#[cfg(test)]
mod parts;
#[cfg(test)]
mod runs;
