// What symbols mean as objects.
ghost use Rattle.std.specs.Prelude.{◌≡◌, ◌&&◌, not, IfOk};
ghost use Rattle.cc_base.specs.Faces.{all_defs, is_defined};
ghost use Rattle.block_mem.specs.Start.{is_shared, is_first, faces_of, object_of, meant_elsewhere, meant};
ghost use Rattle.block_mem.specs.declared.value.BlockName.TheVariants.{Global as GlobalName};
ghost use Rattle.clight_sem.specs.Functions.{parts_of, all_parts, object_meant, objects_of};
ghost use Rattle.mean_start.specs.Linkages.{IsLinkage, IsOwn};

use crate::faces::is_defined;
use crate::linkage::Linkage;
use crate::own::{Own, has_function, own_object};
use crate::shown::{is_function, seen_object, shared_object};
use block_mem::BlockName;
use sqlite_items::Items;
use std::alloc::{AllocError, Global};

// The object that the units show or share under a name. A function means none.
fn elsewhere(linkage: &Linkage<'_>, name: &[u8]) -> Option<BlockName>
    requires linkage { IsLinkage linkage.now }
    ensures { result ≡ meant_elsewhere (all_parts linkage.now.units.now) name.now }
{
    if is_function(linkage, name) {
        return None;
    }
    match seen_object(linkage, name) {
        Some(block) => Some(block),
        None => shared_object(linkage, name),
    }
}

/// The object that a name means in an initialiser of a unit.
pub fn meant(linkage: &Linkage<'_>, own: &Own<'_>, name: &[u8]) -> Option<BlockName>
    requires linkage { IsLinkage linkage.now }
    requires own { IsOwn own.now }
    ensures { result ≡ meant (all_parts linkage.now.units.now) own.now.number (parts_of own.now.unit.now) name.now }
{
    match own_object(own, name) {
        Some(block) => Some(block),
        None => elsewhere(linkage, name),
    }
}

// The object that a name means in a unit. A function of the unit is none.
fn object_meant(linkage: &Linkage<'_>, own: &Own<'_>, name: &[u8]) -> Option<BlockName>
    requires linkage { IsLinkage linkage.now }
    requires own { IsOwn own.now }
    ensures { result ≡ object_meant (all_parts linkage.now.units.now) own.now.number own.now.unit.now name.now }
{
    if has_function(own, name) {
        None
    } else {
        meant(linkage, own, name)
    }
}

// Whether what was found is this object.
fn is_this(found: Option<BlockName>, number: u32, index: u32) -> bool
    ensures { result ≡ is_first (GlobalName number index) found }
{
    match found {
        Some(BlockName::Global { unit, index: place }) => number == unit && index == place,
        _ => false,
    }
}

/// Whether a shared object is a block: no unit defines its name, and this is the first that shares it.
pub fn is_shared_block(linkage: &Linkage<'_>, number: u32, index: u32, name: &[u8]) -> bool
    requires linkage { IsLinkage linkage.now }
    ensures { result ≡ not (is_defined (all_defs (faces_of (all_parts linkage.now.units.now))) name.now) && is_first (GlobalName number index) (object_of (is_shared name.now) (all_parts linkage.now.units.now)) }
{
    !is_defined(linkage, name) && is_this(shared_object(linkage, name), number, index)
}

/// What the symbols of a unit mean as objects.
pub fn objects_of(
    alloc: Global,
    linkage: &Linkage<'_>,
    own: &Own<'_>,
) -> Result<Items<Option<BlockName>>, AllocError>
    requires linkage { IsLinkage linkage.now }
    requires own { IsOwn own.now }
    ensures { IfOk result (λ objects. objects ≡ objects_of (all_parts linkage.now.units.now) own.now.number own.now.unit.now) }
{
    let mut objects = Items::new(alloc);
    'symbols: for symbol in own.unit.symbol_names.as_slice() {
        objects.push(object_meant(linkage, own, symbol.name.as_slice()))?;
    }
    Ok(objects)
}
