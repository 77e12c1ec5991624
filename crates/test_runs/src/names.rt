// What names mean in linked units.
ghost use Rattle.std.specs.Prelude.{length, ◌≤◌};

use block_mem::{BlockName, Memory};
use clight_unit::ClightUnit;
use mean_start::{callees_by_unit, linkage_of, main_of, objects_by_unit, start_memory};
use sqlite_items::Items;
use std::alloc::{AllocError, Global};
use unit_names::Meaning;

/// What each symbol of each unit means, and what the run starts with.
#[derive(Drop)]
pub struct Names {
    objects: Items<Items<Option<BlockName>>>,
    callees: Items<Items<Meaning>>,
    main: Option<Meaning>,
}

/// Names mean in units of any language what they mean in the typed units that those are made of, and so does memory at the start.
pub(crate) fn linked(alloc: Global, typed: &[ClightUnit]) -> Result<(Names, Memory), AllocError>
    requires { length typed.now ≤ 4096 }
{
    let linkage = linkage_of(alloc, typed)?;
    let names = Names {
        objects: objects_by_unit(alloc, &linkage)?,
        callees: callees_by_unit(alloc, &linkage)?,
        main: main_of(&linkage),
    };
    Ok((names, start_memory(alloc, &linkage)?))
}

impl Names {
    /// What a symbol of a unit means as an object, if it means one.
    pub fn object(&self, unit: u32, symbol: u32) -> Option<BlockName> {
        *self.objects.get(unit as usize)?.get(symbol as usize)?
    }

    /// What a symbol of a unit means as a callee.
    pub fn callee(&self, unit: u32, symbol: u32) -> Meaning {
        let Some(callees) = self.callees.get(unit as usize) else {
            return Meaning::Nothing;
        };
        match callees.get(symbol as usize) {
            Some(meaning) => *meaning,
            None => Meaning::Nothing,
        }
    }

    /// What `main` means, if it means anything.
    pub fn main(&self) -> Option<Meaning> {
        self.main
    }
}
