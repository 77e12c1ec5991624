// What names mean over all units, by maps that are made once.
ghost use Rattle.std.specs.Prelude.{◌≡◌, ◌<◌, ◌^◌, length, OnOk, IfOk};
ghost use Rattle.mean_start.specs.Linkages.{IsLinkage};
ghost use Rattle.mean_start.specs.Noted.{AddsUnit, AllLack};
ghost use Rattle.mean_start.specs.Small.{IsSmall};

use crate::firsts::Firsts;
use crate::names::{
    note_definitions, note_function_definitions, note_seen, note_shared, note_shared_sizes,
    note_shown,
};
use crate::small::are_small;
use block_mem::BlockName;
use clight_unit::ClightUnit;
use std::alloc::{AllocError, Global};
use unit_names::Meaning;

/// Linked units, and for each name what the first unit tells that tells anything. One name is looked up in constant time, as far
/// as hashes are spread.
#[derive(Drop)]
pub struct Linkage<'u> {
    pub units: &'u [ClightUnit],
    /// The size of the object that is defined for all units, and none of a function.
    pub(crate) definitions: Firsts<'u, Option<u32>>,
    /// The functions that are defined for all units.
    pub(crate) function_definitions: Firsts<'u, ()>,
    /// The stated size of a shared object.
    pub(crate) shared_sizes: Firsts<'u, u32>,
    /// The object that all units see.
    pub(crate) seen: Firsts<'u, BlockName>,
    /// The object that is shared.
    pub(crate) shared: Firsts<'u, BlockName>,
    /// The function that all units see.
    pub(crate) shown: Firsts<'u, Meaning>,
}

// Nothing is told yet.
fn untold<'u>(alloc: Global, units: &'u [ClightUnit]) -> Linkage<'u>
    ensures units { result.units.now ≡ units.now }
    ensures lack { AllLack result 0 units.now units.now }
{
    Linkage {
        units,
        definitions: Firsts::new(alloc),
        function_definitions: Firsts::new(alloc),
        shared_sizes: Firsts::new(alloc),
        seen: Firsts::new(alloc),
        shared: Firsts::new(alloc),
        shown: Firsts::new(alloc),
    }
}

// Notes what a unit tells.
fn note_unit<'u>(
    linkage: &mut Linkage<'u>,
    number: u32,
    unit: &'u ClightUnit,
) -> Result<(), AllocError>
    requires small { IsSmall unit.now }
    ensures { OnOk result (AddsUnit linkage.old linkage.new number unit.now) }
{
    note_definitions(&mut linkage.definitions, unit)?;
    note_function_definitions(&mut linkage.function_definitions, unit)?;
    note_shared_sizes(&mut linkage.shared_sizes, unit)?;
    note_seen(&mut linkage.seen, number, unit)?;
    note_shared(&mut linkage.shared, number, unit)?;
    note_shown(&mut linkage.shown, number, unit)?;
    Ok(())
}

/// What these units tell of names, in time linear in their definitions, uses, objects and functions. It takes memory in proportion.
pub fn linkage_of<'u>(alloc: Global, units: &'u [ClightUnit]) -> Result<Linkage<'u>, AllocError>
    requires few { length units.now < 2 ^ 32 }
    ensures units { IfOk result (λ linkage. linkage.units.now ≡ units.now) }
    ensures is { IfOk result (λ linkage. IsLinkage linkage) }
{
    if !are_small(units) {
        return Err(AllocError);
    }
    let mut linkage = untold(alloc, units);
    let mut number = 0;
    'units: for unit in units {
        note_unit(&mut linkage, number, unit)?;
        number += 1;
    }
    Ok(linkage)
}
