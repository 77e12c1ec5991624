//! The second form of a unit: functions that emit bytes, call one another and return (`specs/SecondForm.antt`). `second_form` reads it
//! off a tree. What linked units of it mean stands in `specs/SecondRun.antt` (turns and calls), `specs/SecondFaults.antt` (which
//! lists of units are programs), `specs/SecondLaws.antt` and `specs/SecondLinks.antt`.
#![tactic(auto)]

mod second;
mod second_items;
mod second_names;
mod second_rules;
mod second_tree;

pub use second::second_form;
pub use second_items::{Item, SecondForm, SmallStmt, SmallStmts};
