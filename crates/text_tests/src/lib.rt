//! Tests of the whole text both ways: how it is cut, what is parsed and what is told of it, and what is printed. They are
//! a crate of their own, since a crate with tests is proved twice.
#![tactic(auto)]

#[cfg(test)]
mod lexing;
#[cfg(test)]
mod parsing;
#[cfg(test)]
mod printing;
