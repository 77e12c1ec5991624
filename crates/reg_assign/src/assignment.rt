// A location for each temporary.
ghost use Rattle.std.specs.Prelude.{◌≡◌, length, IfOk};
ghost use Rattle.reg_assign.specs.Assignments.{HasOwnSlots};

use crate::homes::give_registers;
use crate::meetings::meetings_of;
use crate::order::taken;
use ltl_lang::Loc;
use reg_live::Lives;
use rtl_lang::RtlFn;
use sqlite_items::Items;
use std::alloc::{AllocError, Global};
use std::marker::Model;

/// A location for each temporary of a function, by its number: a register, or the slot of the same number, so that no slot is shared.
///
/// Contracts see the list of the locations.
#[derive(Drop)]
pub struct Assignment {
    homes: Items<Loc>,
}

impl Model for Assignment {
    ghost use Rattle.std.specs.Prelude.{List};
    ghost use Rattle.ltl_lang.specs.declared.location.Loc.{Loc};
    ghost use Rattle.reg_assign.specs.Assignments.{HasOwnSlots};

    ghost Value = { List Loc };

    ghost view = { λ a. a.homes };

    ghost invariant = { λ a. HasOwnSlots a.homes };
}

impl Assignment {
    /// The locations, by the numbers of the temporaries.
    pub fn homes(&self) -> &[Loc]
        ensures same { result.now ≡ self.now }
        ensures own { HasOwnSlots self.now }
    {
        self.homes.as_slice()
    }
}

// The slot of its own number for each temporary.
fn own_slots(alloc: Global, temporaries: u32) -> Result<Items<Loc>, AllocError>
    ensures count { IfOk result (λ made. length made ≡ temporaries) }
    ensures own { IfOk result HasOwnSlots }
{
    let mut homes = Items::new(alloc);
    for temporary in 0..temporaries {
        homes.push(Loc::Slot(temporary))?;
    }
    Ok(homes)
}

/// A location for each temporary, chosen by what is live together: the first of the four registers that no neighbour with a location
/// has, else a slot.
///
/// Whether neighbours differ is not in the contract: that is tested of the answer. Temporaries from number 8,192 on get slots.
///
/// # Errors
///
/// Memory may run out.
pub fn assign(alloc: Global, function: &RtlFn, lives: &Lives) -> Result<Assignment, AllocError>
    ensures { IfOk result (λ made. length made ≡ function.now.temporaries) }
{
    let mut meetings = meetings_of(alloc, function, lives)?;
    let order = taken(alloc, &mut meetings)?;
    let mut homes = own_slots(alloc, function.temps())?;
    give_registers(&mut homes, &meetings.rows, order.as_slice());
    Ok(Assignment { homes })
}
