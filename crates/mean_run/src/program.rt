// The linked program.
ghost use Rattle.std.specs.Prelude.{◌≡◌, option_map};
ghost use Rattle.clight_sem.specs.Functions.{function_at, objects_at, callee_at, is_main_of};
ghost use Rattle.mean_run.specs.Processes.{linked_of};

use block_mem::BlockName;
use clight_unit::{ClightUnit, Function};
use sqlite_items::Items;
use unit_names::Meaning;

/// The units of a program, and what each symbol of each unit means.
#[derive(Drop)]
pub struct Program<'u> {
    pub units: &'u [ClightUnit],
    /// By unit and symbol: the object.
    pub objects: Items<Items<Option<BlockName>>>,
    /// By unit and symbol: what it means as a callee.
    pub callees: Items<Items<Meaning>>,
    /// How much stack all active calls may need together, in bytes.
    pub room: u32,
}

impl<'u> Program<'u> {
    /// The function of a number in the unit of a number.
    pub fn function(&self, unit: u32, index: u32) -> Option<&'u Function>
        ensures { option_map (λ f. f.now) result ≡ function_at self.now.units.now unit index }
    {
        self.units.get(unit as usize)?.functions.get(index as usize)
    }

    /// What the symbols of a unit mean as objects.
    pub fn objects(&self, unit: u32) -> &[Option<BlockName>]
        ensures { result.now ≡ objects_at (linked_of self.now) unit }
    {
        match self.objects.get(unit as usize) {
            Some(objects) => objects.as_slice(),
            None => &[],
        }
    }

    /// What a symbol of a unit means as a callee.
    pub fn callee(&self, unit: u32, symbol: u32) -> Meaning
        ensures { result ≡ callee_at (linked_of self.now) unit symbol }
    {
        match self.callees.get(unit as usize) {
            Some(callees) => match callees.get(symbol as usize) {
                Some(meaning) => *meaning,
                None => Meaning::Nothing,
            },
            None => Meaning::Nothing,
        }
    }

    /// Whether a function of a unit is `main`.
    pub fn is_main(&self, unit: u32, function: &Function) -> bool
        ensures { result ≡ is_main_of (linked_of self.now) unit function.now }
    {
        match self.units.get(unit as usize) {
            Some(unit) => match unit.symbol_names.as_slice().get(function.symbol as usize) {
                Some(symbol) => symbol.name.as_slice() == b"main".as_slice(),
                None => false,
            },
            None => false,
        }
    }
}
