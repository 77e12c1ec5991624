// Units whose objects, functions, definitions and uses are numbered by 32 bits.
ghost use Rattle.std.specs.Bool.{Decides};
ghost use Rattle.mean_start.specs.Small.{IsSmall, AreSmall};

use clight_unit::ClightUnit;

fn is_small(unit: &ClightUnit) -> bool
    ensures { Decides result (IsSmall unit.now) }
{
    let limit = u32::MAX as usize;
    unit.globals.len() <= limit
        && unit.functions.len() <= limit
        && unit.face.defs.len() <= limit
        && unit.face.uses.len() <= limit
}

/// Whether the numbers of all of them fit 32 bits. More would take more memory than there is.
pub fn are_small(units: &[ClightUnit]) -> bool
    ensures { Decides result (AreSmall units.now) }
{
    'units: for unit in units {
        if !is_small(unit) {
            return false;
        }
    }
    true
}
