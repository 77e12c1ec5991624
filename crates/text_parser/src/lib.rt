//! The parser of a unit's text: `parse` gives its tree, or its first fault (`specs/Parsing.antt`).
//!
//! `tokens` of `text_grammar` cuts the text. Each token becomes a word, which says what it is to the grammar
//! (`specs/Symbols.antt`), the limits of depth are tested over all of them, and then a recursive descent that looks one
//! token ahead reads the tree. Each of its functions does what a program of `text_grammar/specs/laws/Programs.antt` says. Lists
//! are read in loops; what recursion there is stays within the limits of depth.
#![tactic(auto)]

mod cursor;
mod declarators;
mod depth;
mod expressions;
mod externals;
mod heads;
mod lexeme;
mod locals;
mod nodes;
mod objects;
mod operators;
mod parameters;
mod reading;
mod simples;
mod statements;
mod stop;
mod types;
mod unit;
mod word;
mod words;

pub use reading::{one_answer, parse};
