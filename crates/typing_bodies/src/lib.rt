//! The definitions of functions. `typed_function` tells which rules of `specs/Functions.antt` a function breaks, its head, locals and
//! statements included, and gives the function of the typed unit, where it breaks none. `signature_of` is what a head says of its
//! type.
#![tactic(auto)]

mod functions;
mod laws;
mod locals;
mod prologue;
mod signatures;

pub use functions::typed_function;
pub use laws::unbroken_functions_are_typed;
pub use prologue::Prologue;
pub use signatures::signature_of;
