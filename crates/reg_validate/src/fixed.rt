// The fixed homes.
ghost use Rattle.std.specs.Prelude.{◌≡◌, IfOk};
ghost use Rattle.reg_validate.specs.Fixed.{fixed_home, fixed_homes, fixed_slots};

use ltl_lang::Loc;
use sqlite_items::Items;
use std::alloc::{AllocError, Global};

/// The fixed home of a temporary: a register for each of the first four, and else a slot of its own.
pub fn fixed_home(temporary: u32) -> Loc
    ensures { result ≡ fixed_home temporary }
{
    match temporary {
        0 => Loc::Ebx,
        1 => Loc::Esi,
        2 => Loc::Edi,
        3 => Loc::Ebp,
        _ => Loc::Slot(temporary - 4),
    }
}

/// How many slots the fixed homes of so many temporaries take.
pub fn fixed_slots(temporaries: u32) -> u32
    ensures { result ≡ fixed_slots temporaries }
{
    temporaries.saturating_sub(4)
}

/// The fixed homes of so many temporaries.
///
/// # Errors
/// Memory has run out.
#[tactic(auto, using(crate::specs::laws::Fixed::fixed_homes_more))]
pub fn fixed_homes(alloc: Global, temporaries: u32) -> Result<Items<Loc>, AllocError>
    ensures { IfOk result (λ made. made ≡ fixed_homes temporaries) }
{
    let mut homes = Items::new(alloc);
    'homes: for temporary in 0..temporaries {
        homes.push(fixed_home(temporary))?;
    }
    Ok(homes)
}
