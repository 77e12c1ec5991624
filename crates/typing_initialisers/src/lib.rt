//! What the initialisers of objects of file scope give: the first bytes of an object, and its words that are pointers at first.
//! `integer_of` and `pointer_of` tell what the typed expression of an initialiser comes to as a constant (C11, 6.6, of the subset).
//! `initial_data` tells the rules of `specs/Initialisers.antt` that an initialiser breaks, and gives the `Data` that the object begins
//! with. What may be assigned to a local is no matter of this crate.
#![tactic(auto)]

mod constant;
mod constant_expression;
mod constant_integer;
mod constant_pointer;
mod data;
mod filling;
mod laws;
mod object;
mod slots;

pub use constant::Constant;
pub use constant_expression::{integer_of, pointer_of};
pub use constant_integer::ConstantInteger;
pub use constant_pointer::{Address, ConstantPointer};
pub use data::{Data, Pointed};
pub use laws::{parts_stand_at_their_places, parts_stand_in_their_object};
pub use object::initial_data;
