// What the symbols of all units mean, and `main`.
ghost use Rattle.std.specs.Prelude.{◌≡◌, IfOk};
ghost use Rattle.clight_sem.specs.Functions.{all_parts, objects_of, callees_of, of_each, shown_function, main_name};
ghost use Rattle.mean_start.specs.Linkages.{IsLinkage};

use crate::callees::callees_of;
use crate::linkage::Linkage;
use crate::objects::objects_of;
use crate::own::own_of;
use crate::shown::shown_function;
use block_mem::BlockName;
use sqlite_items::Items;
use std::alloc::{AllocError, Global};
use unit_names::Meaning;

/// By unit and symbol: the object that the symbol means (C11, 6.2.2), if it means one.
pub fn objects_by_unit(
    alloc: Global,
    linkage: &Linkage<'_>,
) -> Result<Items<Items<Option<BlockName>>>, AllocError>
    requires linkage { IsLinkage linkage.now }
    ensures { IfOk result (λ all. all ≡ of_each (objects_of (all_parts linkage.now.units.now)) 0 linkage.now.units.now) }
{
    let mut all = Items::new(alloc);
    let mut number = 0;
    'units: for unit in linkage.units {
        let own = own_of(alloc, number, unit)?;
        all.push(objects_of(alloc, linkage, &own)?)?;
        number += 1;
    }
    Ok(all)
}

/// By unit and symbol: what the symbol means as a callee, where its type is the one that its unit declares.
pub fn callees_by_unit(
    alloc: Global,
    linkage: &Linkage<'_>,
) -> Result<Items<Items<Meaning>>, AllocError>
    requires linkage { IsLinkage linkage.now }
    ensures { IfOk result (λ all. all ≡ of_each (callees_of linkage.now.units.now (all_parts linkage.now.units.now)) 0 linkage.now.units.now) }
{
    let mut all = Items::new(alloc);
    let mut number = 0;
    'units: for unit in linkage.units {
        let own = own_of(alloc, number, unit)?;
        all.push(callees_of(alloc, linkage, &own)?)?;
        number += 1;
    }
    Ok(all)
}

/// The `main` that the program starts with: the first that a unit shows.
pub fn main_of(linkage: &Linkage<'_>) -> Option<Meaning>
    requires linkage { IsLinkage linkage.now }
    ensures { result ≡ shown_function linkage.now.units.now main_name }
{
    shown_function(linkage, b"main".as_slice())
}
