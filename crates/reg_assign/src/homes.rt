// Registers that neighbours leave free.
ghost use Rattle.std.specs.Prelude.{◌≡◌, ℕ, ◌<◌, ◌≤◌, length, All, IfOk, IfSome};
ghost use Rattle.bit_rows.specs.Rows.{height};
ghost use Rattle.reg_assign.specs.Assignments.{IsRegister, HasOwnSlots};
ghost use Rattle.reg_assign.specs.Rows.{IsSquare};

use bit_rows::BitRows;
use ltl_lang::Loc;
use sqlite_items::Items;

// Which registers are in use.
#[derive(Clone, Copy)]
struct Used {
    ebx: bool,
    esi: bool,
    edi: bool,
    ebp: bool,
}

fn with(used: Used, home: Loc) -> Used {
    match home {
        Loc::Ebx => Used { ebx: true, ..used },
        Loc::Esi => Used { esi: true, ..used },
        Loc::Edi => Used { edi: true, ..used },
        Loc::Ebp => Used { ebp: true, ..used },
        Loc::Slot(_) => used,
    }
}

fn first_free(used: Used) -> Option<Loc>
    ensures { IfSome result IsRegister }
{
    if !used.ebx {
        Some(Loc::Ebx)
    } else if !used.esi {
        Some(Loc::Esi)
    } else if !used.edi {
        Some(Loc::Edi)
    } else if !used.ebp {
        Some(Loc::Ebp)
    } else {
        None
    }
}

// The first register that no neighbour has so far.
fn free_register(rows: &BitRows, homes: &[Loc], temporary: u32) -> Option<Loc>
    requires { temporary < height rows.now }
    ensures { IfSome result IsRegister }
{
    let mut used = Used {
        ebx: false,
        esi: false,
        edi: false,
        ebp: false,
    };
    let mut from = 0;
    while let Some(other) = rows.first_from(temporary as usize, from) {
        if let Some(home) = homes.get(other) {
            used = with(used, *home);
        }
        from = other + 1;
    }
    first_free(used)
}

/// Gives each of these, from the last one on, the first register that no neighbour has, where there is one.
pub fn give_registers(homes: &mut Items<Loc>, rows: &BitRows, order: &[u32])
    requires rows { All (λ node. node < height rows.now) order.now }
    requires homes { height rows.now ≤ length homes.old }
    requires own { HasOwnSlots homes.old }
    ensures count { length homes.new ≡ length homes.old }
    ensures own { HasOwnSlots homes.new }
{
    for left in (0..order.len()).rev() {
        let temporary = order[left];
        if let Some(register) = free_register(rows, homes.as_slice(), temporary) {
            homes.set(temporary as usize, register);
        }
    }
}
