// Why units are no program.
ghost use Rattle.std.specs.Prelude.{◌≡◌, ◌||◌, ◌<◌, ◌^◌, ℕ, List, None, length, IfOk};
ghost use Rattle.cc_base.specs.Faces.{first_answer, is_defined, doubled, unresolved, sized, source_fault};
ghost use Rattle.block_mem.specs.Start.{faces_of};
ghost use Rattle.clight_sem.specs.Functions.{all_parts};
ghost use Rattle.mean_start.specs.Linkages.{IsLinkage};
ghost use Rattle.mean_start.specs.Small.{IsSmall, AreSmall};
ghost use Rattle.mean_start.specs.FaultsAt.{knows, doubled_after, unresolved_at, sized_at};

use crate::faces::{has_meaning, measure};
use crate::firsts::{Firsts, look_up, note};
use crate::linkage::Linkage;
use cc_base::{SourceFault, Wanted};
use clight_unit::ClightUnit;
use std::alloc::{AllocError, Global};

// A definition of a unit whose name is known, or that of an earlier definition of the unit. Where there is none, all names that the
// unit defines are known afterwards.
fn doubled<'u>(
    known: &mut Firsts<'u, ()>,
    number: u32,
    unit: &'u ClightUnit,
) -> Result<Option<SourceFault>, AllocError>
    requires small { IsSmall unit.now }
    ensures fault { IfOk result (λ fault. fault ≡ doubled_after (knows known.old) number unit.now.face.defs) }
    ensures knows { IfOk result (λ fault. fault ≡ None → (name : List ℕ) → knows known.new name ≡ (knows known.old name || is_defined unit.now.face.defs name)) }
{
    let defs = unit.face.defs.as_slice();
    let mut index = 0;
    'defs: for def in defs {
        let name = def.name.as_slice();
        if look_up(known, name).is_some() {
            return Ok(Some(SourceFault::Doubled {
                unit: number,
                index,
            }));
        }
        note(known, true, name, ())?;
        index += 1;
    }
    Ok(None)
}

fn first_doubled(alloc: Global, units: &[ClightUnit]) -> Result<Option<SourceFault>, AllocError>
    requires few { length units.now < 2 ^ 32 }
    requires small { AreSmall units.now }
    ensures { IfOk result (λ fault. fault ≡ first_answer (doubled (faces_of (all_parts units.now))) 0 (faces_of (all_parts units.now))) }
{
    let mut known = Firsts::new(alloc);
    let mut number = 0;
    'units: for unit in units {
        if let Some(fault) = doubled(&mut known, number, unit)? {
            return Ok(Some(fault));
        }
        number += 1;
    }
    Ok(None)
}

// A use that means nothing.
fn unresolved_at(
    linkage: &Linkage<'_>,
    number: u32,
    index: u32,
    wanted: &Wanted,
) -> Option<SourceFault>
    requires linkage { IsLinkage linkage.now }
    ensures { result ≡ unresolved_at (faces_of (all_parts linkage.now.units.now)) number index wanted.now }
{
    if !wanted.shared && !has_meaning(linkage, wanted.name.as_slice()) {
        Some(SourceFault::Unresolved {
            unit: number,
            index,
        })
    } else {
        None
    }
}

fn unresolved(linkage: &Linkage<'_>, number: u32, unit: &ClightUnit) -> Option<SourceFault>
    requires linkage { IsLinkage linkage.now }
    requires small { IsSmall unit.now }
    ensures { result ≡ unresolved (faces_of (all_parts linkage.now.units.now)) number unit.now.face }
{
    let uses = unit.face.uses.as_slice();
    let mut index = 0;
    'uses: for wanted in uses {
        if let Some(fault) = unresolved_at(linkage, number, index, wanted) {
            return Some(fault);
        }
        index += 1;
    }
    None
}

fn first_unresolved(linkage: &Linkage<'_>) -> Option<SourceFault>
    requires linkage { IsLinkage linkage.now }
    ensures { result ≡ first_answer (unresolved (faces_of (all_parts linkage.now.units.now))) 0 (faces_of (all_parts linkage.now.units.now)) }
{
    let mut number = 0;
    'units: for unit in linkage.units {
        if let Some(fault) = unresolved(linkage, number, unit) {
            return Some(fault);
        }
        number += 1;
    }
    None
}

// A use whose stated size is another one than the object's.
fn sized_at(linkage: &Linkage<'_>, number: u32, index: u32, wanted: &Wanted) -> Option<SourceFault>
    requires linkage { IsLinkage linkage.now }
    ensures { result ≡ sized_at (faces_of (all_parts linkage.now.units.now)) number index wanted.now }
{
    if wanted.stated == 0 {
        return None;
    }
    let size = measure(linkage, wanted.name.as_slice())?;
    if wanted.stated == size {
        None
    } else {
        Some(SourceFault::Sized {
            unit: number,
            index,
            stated: wanted.stated,
            defined: size,
        })
    }
}

fn sized(linkage: &Linkage<'_>, number: u32, unit: &ClightUnit) -> Option<SourceFault>
    requires linkage { IsLinkage linkage.now }
    requires small { IsSmall unit.now }
    ensures { result ≡ sized (faces_of (all_parts linkage.now.units.now)) number unit.now.face }
{
    let uses = unit.face.uses.as_slice();
    let mut index = 0;
    'uses: for wanted in uses {
        if let Some(fault) = sized_at(linkage, number, index, wanted) {
            return Some(fault);
        }
        index += 1;
    }
    None
}

fn first_sized(linkage: &Linkage<'_>) -> Option<SourceFault>
    requires linkage { IsLinkage linkage.now }
    ensures { result ≡ first_answer (sized (faces_of (all_parts linkage.now.units.now))) 0 (faces_of (all_parts linkage.now.units.now)) }
{
    let mut number = 0;
    'units: for unit in linkage.units {
        if let Some(fault) = sized(linkage, number, unit) {
            return Some(fault);
        }
        number += 1;
    }
    None
}

/// Why units are no program (C11, 6.2.2 and 6.9), if they are none: the first definition whose name an earlier one has, else
/// the first use that means nothing, where a missing `main` comes last, else the first use of another size than the object's.
pub fn fault_of(alloc: Global, linkage: &Linkage<'_>) -> Result<Option<SourceFault>, AllocError>
    requires linkage { IsLinkage linkage.now }
    ensures { IfOk result (λ fault. fault ≡ source_fault (faces_of (all_parts linkage.now.units.now))) }
{
    if let Some(fault) = first_doubled(alloc, linkage.units)? {
        return Ok(Some(fault));
    }
    if let Some(fault) = first_unresolved(linkage) {
        return Ok(Some(fault));
    }
    if !has_meaning(linkage, b"main".as_slice()) {
        return Ok(Some(SourceFault::Unresolved {
            unit: linkage.units.len() as u32,
            index: 0,
        }));
    }
    Ok(first_sized(linkage))
}
