// What stands before a place of a unit.
use cc_base::Globals;
use clight_unit::Function;
use typing_declarations::Sum;
use typing_scopes::Scope;
use typing_statements::Gathered;

/// What stands before a declaration of a unit.
#[derive(Drop)]
pub struct Walk<'t> {
    /// What is visible.
    pub scope: Scope<'t>,
    /// The sizes of the objects that are defined.
    pub sum: Sum,
    /// The nodes, as far as they are told.
    pub nodes: u32,
    /// The objects that are defined.
    pub globals: Globals,
    /// The functions that are defined. None where one of them breaks a rule.
    pub functions: Gathered<Function>,
}
