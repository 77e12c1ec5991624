//! Steps of the i386 machine on code that does not change, above which there is only the stack: an equation for each
//! kind of instruction, by which the code of a unit is shown to do what the unit means. All of it is in `specs/`.
#![tactic(auto)]
