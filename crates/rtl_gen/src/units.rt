// Units.
ghost use Rattle.std.specs.Prelude.{◌≡◌, map, IfOk};
ghost use Rattle.rtl_gen.specs.Translation.{rtl_function};
ghost use Rattle.rtl_gen.specs.Units.{Matches};

use crate::functions::rtl_function;
use core_lang::{CoreUnit, Function};
use rtl_lang::{RtlFn, RtlUnit};
use sqlite_items::Items;
use std::alloc::{AllocError, Global};
use unit_passes::UnitOf;

fn rtl_functions(alloc: Global, functions: &[Function]) -> Result<Items<RtlFn>, AllocError>
    ensures { IfOk result (λ made. made ≡ map rtl_function functions.now) }
{
    let mut made = Items::new(alloc);
    'functions: for function in functions {
        made.push(rtl_function(alloc, function)?)?;
    }
    Ok(made)
}

/// A unit in Rtl.
pub fn rtl_unit(alloc: Global, unit: &CoreUnit) -> Result<RtlUnit, AllocError>
    ensures { IfOk result (λ made. Matches unit.now made) }
{
    Ok(UnitOf {
        naming: unit.naming.copied(alloc)?,
        functions: rtl_functions(alloc, unit.functions.as_slice())?,
    })
}
