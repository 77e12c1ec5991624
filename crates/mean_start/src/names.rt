// What one unit tells of names.
ghost use Rattle.std.specs.Prelude.{◌≡◌, ◌&&◌, not, OnOk};
ghost use Rattle.cc_base.specs.Faces.{size_of_object};
ghost use Rattle.clight_sem.specs.Functions.{symbol_name};
ghost use Rattle.mean_start.specs.Firsts.{Adds};
ghost use Rattle.mean_start.specs.Linkages.{definition_of, function_definition_of, shared_size_of, seen_of, shared_of, shown_of, own_object_of, own_function_of};
ghost use Rattle.mean_start.specs.Small.{IsSmall};

use crate::firsts::{Firsts, note};
use block_mem::BlockName;
use cc_base::{Def, GlobalPart};
use clight_unit::ClightUnit;
use std::alloc::AllocError;
use unit_names::Meaning;

// The name of a symbol of a unit. A number that is none of a symbol has the empty name.
fn symbol_name(unit: &ClightUnit, symbol: u32) -> &[u8]
    ensures { result.now ≡ symbol_name unit.now symbol }
{
    match unit.symbol_names.as_slice().get(symbol as usize) {
        Some(symbol) => symbol.name.as_slice(),
        None => &[],
    }
}

fn size_of_object(def: &Def) -> Option<u32>
    ensures { result ≡ size_of_object def.now }
{
    if def.function { None } else { Some(def.size) }
}

// Whether others see an object under its name.
fn is_seen(global: &GlobalPart) -> bool
    ensures { result ≡ (not global.now.shared && not global.now.local) }
{
    !global.shared && !global.local
}

/// Notes the size of each object that the unit defines for others, and that a function has none.
pub fn note_definitions<'u>(
    firsts: &mut Firsts<'u, Option<u32>>,
    unit: &'u ClightUnit,
) -> Result<(), AllocError>
    ensures { OnOk result (Adds firsts.old firsts.new (λ name. definition_of name 0 unit.now)) }
{
    'items: for def in unit.face.defs.as_slice() {
        note(firsts, true, def.name.as_slice(), size_of_object(def))?;
    }
    Ok(())
}

/// Notes each function that the unit defines for others.
pub fn note_function_definitions<'u>(
    firsts: &mut Firsts<'u, ()>,
    unit: &'u ClightUnit,
) -> Result<(), AllocError>
    ensures { OnOk result (Adds firsts.old firsts.new (λ name. function_definition_of name 0 unit.now)) }
{
    'items: for def in unit.face.defs.as_slice() {
        note(firsts, def.function, def.name.as_slice(), ())?;
    }
    Ok(())
}

/// Notes the size that the unit states of each object that it shares.
pub fn note_shared_sizes<'u>(
    firsts: &mut Firsts<'u, u32>,
    unit: &'u ClightUnit,
) -> Result<(), AllocError>
    ensures { OnOk result (Adds firsts.old firsts.new (λ name. shared_size_of name 0 unit.now)) }
{
    'items: for wanted in unit.face.uses.as_slice() {
        let name = wanted.name.as_slice();
        note(firsts, wanted.shared, name, wanted.stated)?;
    }
    Ok(())
}

/// Notes each object of the unit that others see.
pub fn note_seen<'u>(
    firsts: &mut Firsts<'u, BlockName>,
    number: u32,
    unit: &'u ClightUnit,
) -> Result<(), AllocError>
    requires small { IsSmall unit.now }
    ensures { OnOk result (Adds firsts.old firsts.new (λ name. seen_of name number unit.now)) }
{
    let mut index = 0;
    'items: for global in unit.globals.as_slice() {
        let block = BlockName::Global {
            unit: number,
            index,
        };
        note(firsts, is_seen(global), global.name.as_slice(), block)?;
        index += 1;
    }
    Ok(())
}

/// Notes each object that the unit shares.
pub fn note_shared<'u>(
    firsts: &mut Firsts<'u, BlockName>,
    number: u32,
    unit: &'u ClightUnit,
) -> Result<(), AllocError>
    requires small { IsSmall unit.now }
    ensures { OnOk result (Adds firsts.old firsts.new (λ name. shared_of name number unit.now)) }
{
    let mut index = 0;
    'items: for global in unit.globals.as_slice() {
        let block = BlockName::Global {
            unit: number,
            index,
        };
        note(firsts, global.shared, global.name.as_slice(), block)?;
        index += 1;
    }
    Ok(())
}

/// Notes each object of the unit that is its own.
pub fn note_own_objects<'u>(
    firsts: &mut Firsts<'u, BlockName>,
    number: u32,
    unit: &'u ClightUnit,
) -> Result<(), AllocError>
    requires small { IsSmall unit.now }
    ensures { OnOk result (Adds firsts.old firsts.new (λ name. own_object_of name number unit.now)) }
{
    let mut index = 0;
    'items: for global in unit.globals.as_slice() {
        let block = BlockName::Global {
            unit: number,
            index,
        };
        note(firsts, !global.shared, global.name.as_slice(), block)?;
        index += 1;
    }
    Ok(())
}

/// Notes each function of the unit that others see.
pub fn note_shown<'u>(
    firsts: &mut Firsts<'u, Meaning>,
    number: u32,
    unit: &'u ClightUnit,
) -> Result<(), AllocError>
    requires small { IsSmall unit.now }
    ensures { OnOk result (Adds firsts.old firsts.new (λ name. shown_of name number unit.now)) }
{
    let mut index = 0;
    'items: for function in unit.functions.as_slice() {
        let meaning = Meaning::Function {
            unit: number,
            index,
        };
        let name = symbol_name(unit, function.symbol);
        note(firsts, !function.is_static, name, meaning)?;
        index += 1;
    }
    Ok(())
}

/// Notes each function of the unit.
pub fn note_own_functions<'u>(
    firsts: &mut Firsts<'u, Meaning>,
    number: u32,
    unit: &'u ClightUnit,
) -> Result<(), AllocError>
    requires small { IsSmall unit.now }
    ensures { OnOk result (Adds firsts.old firsts.new (λ name. own_function_of name number unit.now)) }
{
    let mut index = 0;
    'items: for function in unit.functions.as_slice() {
        let meaning = Meaning::Function {
            unit: number,
            index,
        };
        note(firsts, true, symbol_name(unit, function.symbol), meaning)?;
        index += 1;
    }
    Ok(())
}
