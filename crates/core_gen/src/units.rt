// Units.
ghost use Rattle.std.specs.Prelude.{◌≡◌, map, IfOk};
ghost use Rattle.core_gen.specs.Units.{is_main_named, unit_function, Matches};

use crate::functions::function_code;
use cc_base::SymbolName;
use clight_unit::{ClightUnit, Function};
use core_lang::{CoreUnit, Function as CoreFunction};
use sqlite_items::Items;
use std::alloc::{AllocError, Global};
use unit_names::Naming;

// The symbol's name is `main`.
fn is_main_named(symbol_names: &[SymbolName], symbol: u32) -> bool
    ensures { result ≡ is_main_named symbol_names.now symbol }
{
    match symbol_names.get(symbol as usize) {
        None => false,
        Some(symbol_name) => symbol_name.name.as_slice() == b"main".as_slice(),
    }
}

// The code of a function of a unit with these names.
#[tactic(auto, unfolding(crate::specs::Units::unit_function))]
fn unit_function(
    alloc: Global,
    symbol_names: &[SymbolName],
    function: &Function,
) -> Result<CoreFunction, AllocError>
    ensures { IfOk result (λ made. made ≡ unit_function symbol_names.now function.now) }
{
    let is_main = is_main_named(symbol_names, function.symbol);
    function_code(alloc, is_main, function)
}

fn unit_functions(
    alloc: Global,
    symbol_names: &[SymbolName],
    functions: &[Function],
) -> Result<Items<CoreFunction>, AllocError>
    ensures { IfOk result (λ made. made ≡ map (unit_function symbol_names.now) functions.now) }
{
    let mut made = Items::new(alloc);
    'functions: for function in functions {
        made.push(unit_function(alloc, symbol_names, function)?)?;
    }
    Ok(made)
}

/// A unit in Core.
pub fn unit_code(alloc: Global, unit: &ClightUnit) -> Result<CoreUnit, AllocError>
    ensures { IfOk result (λ made. Matches unit.now made) }
{
    Ok(CoreUnit {
        naming: Naming::of(alloc, &unit.face, &unit.symbol_names, &unit.globals)?,
        functions: unit_functions(
            alloc,
            unit.symbol_names.as_slice(),
            unit.functions.as_slice(),
        )?,
    })
}
