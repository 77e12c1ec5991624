// What names mean by a unit's own definitions, by maps that are made once.
ghost use Rattle.std.specs.Prelude.{◌≡◌, IfOk};
ghost use Rattle.std.specs.List.{list_any};
ghost use Rattle.block_mem.specs.Start.{is_own, object_in};
ghost use Rattle.clight_sem.specs.Functions.{parts_of, is_function_named, function_in};
ghost use Rattle.mean_start.specs.Linkages.{IsOwn};
ghost use Rattle.mean_start.specs.Small.{IsSmall};

use crate::firsts::{Firsts, look_up};
use crate::names::{note_own_functions, note_own_objects};
use block_mem::BlockName;
use clight_unit::ClightUnit;
use std::alloc::{AllocError, Global};
use unit_names::Meaning;

/// A unit of this number, with its own objects and functions by their names, static or not.
#[derive(Drop)]
pub struct Own<'u> {
    pub number: u32,
    pub unit: &'u ClightUnit,
    objects: Firsts<'u, BlockName>,
    functions: Firsts<'u, Meaning>,
}

/// A unit's own names, in time linear in its objects and functions.
pub fn own_of<'u>(alloc: Global, number: u32, unit: &'u ClightUnit) -> Result<Own<'u>, AllocError>
    requires small { IsSmall unit.now }
    ensures number { IfOk result (λ own. own.number ≡ number) }
    ensures unit { IfOk result (λ own. own.unit.now ≡ unit.now) }
    ensures is { IfOk result (λ own. IsOwn own) }
{
    let mut objects = Firsts::new(alloc);
    note_own_objects(&mut objects, number, unit)?;
    let mut functions = Firsts::new(alloc);
    note_own_functions(&mut functions, number, unit)?;
    Ok(Own {
        number,
        unit,
        objects,
        functions,
    })
}

/// The unit's own object of a name.
pub fn own_object(own: &Own<'_>, name: &[u8]) -> Option<BlockName>
    requires own { IsOwn own.now }
    ensures { result ≡ object_in (is_own name.now) own.now.number (parts_of own.now.unit.now) }
{
    look_up(&own.objects, name)
}

/// The unit's own function of a name, static or not.
pub fn own_function(own: &Own<'_>, name: &[u8]) -> Option<Meaning>
    requires own { IsOwn own.now }
    ensures { result ≡ function_in (λ v. is_function_named v name.now) own.now.number own.now.unit.now }
{
    look_up(&own.functions, name)
}

/// Whether the unit has a function of a name, static or not.
pub fn has_function(own: &Own<'_>, name: &[u8]) -> bool
    requires own { IsOwn own.now }
    ensures { result ≡ list_any (is_function_named own.now.unit.now name.now) own.now.unit.now.functions }
{
    look_up(&own.functions, name).is_some()
}
