//! The pass from the source's typed units to Core.
#![tactic(auto)]

mod calls;
mod expressions;
mod functions;
mod laws;
mod operands;
mod pass;
mod statements;
mod units;

pub use expressions::{condition_of, made_place, made_value};
pub use functions::function_code;
pub use laws::{lightens, moves, refines};
pub use operands::{Operand, Operands};
pub use pass::CoreGen;
pub use statements::{body_code, statement_code};
pub use units::unit_code;
