//! What the declarations of a unit say, and which rules they break: each a fact about what stands before (`specs/Structs.antt`,
//! `specs/Objects.antt`, `specs/Functions.antt`, `specs/Locals.antt`; docs/typing.md, "Declarations"). Initialisers and bodies are
//! read elsewhere, between these calls:
//!
//! - `Whole::new`, and `begin_unit` for the scope before the first declaration;
//! - `add_struct` for a struct;
//! - `begin_object` for an object, which answers the type that its initialiser is for, and `end_object` behind the initialiser;
//! - `add_prototype` for a prototype, `begin_function` for a function's head, `add_local` for each local, `end_function`.
#![tactic(auto)]

mod declarators;
mod functions;
mod locals;
mod objects;
mod parameters;
mod prototypes;
mod reserved;
mod rows;
mod start;
mod structs;
mod sums;
mod whole;

pub use declarators::{declared_size, laid_of};
pub use functions::{add_prototype, begin_function, end_function};
pub use locals::{Frame, add_local};
pub use objects::{Target, begin_object, end_object, is_definition};
pub use start::begin_unit;
pub use structs::add_struct;
pub use sums::Sum;
pub use whole::Whole;
