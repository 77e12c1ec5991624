// A typed unit.
ghost use Rattle.std.specs.Prelude.{◌≡◌, slice_get};
ghost use Rattle.std.specs.Option.{option_map};
ghost use Rattle.clight_unit.specs.declared.function.Function.{Function as FunctionValue};

use crate::function::Function;
use crate::signature::Callee;
use cc_base::{Face, Globals, SymbolNames};
use sqlite_items::Items;

/// A unit whose types are decided.
#[derive(Drop)]
pub struct ClightUnit {
    pub face: Face,
    /// The names of its symbols. Functions and statements name a symbol by its number there.
    pub symbol_names: SymbolNames,
    /// What the unit declares of each symbol.
    pub callees: Items<Callee>,
    /// Its objects of file scope, in the order of their definitions.
    pub globals: Globals,
    /// Its functions, in the order of their definitions.
    pub functions: Items<Function>,
    /// The nodes of the unit: those of its functions and of its declarations.
    pub nodes: u32,
}

impl ClightUnit {
    /// What other units see of it.
    pub fn face(&self) -> &Face
        ensures { result.now ≡ self.now.face }
    {
        &self.face
    }

    /// Its nodes.
    pub fn nodes(&self) -> u32
        ensures { result ≡ self.now.nodes }
    {
        self.nodes
    }

    /// The stack that a call of this function needs, in bytes. None exactly where the unit has no such function.
    pub fn need(&self, function: u32) -> Option<u32>
        ensures { result ≡ option_map (λ (f : FunctionValue). f.need) (slice_get self.now.functions function) }
    {
        Some(self.functions.get(function as usize)?.need)
    }

    /// Its objects of file scope, in the order of their definitions.
    pub fn globals(&self) -> &Globals
        ensures { result.now ≡ self.now.globals }
    {
        &self.globals
    }

    /// The names of its symbols, in their order.
    pub fn symbol_names(&self) -> &SymbolNames
        ensures { result.now ≡ self.now.symbol_names }
    {
        &self.symbol_names
    }
}
