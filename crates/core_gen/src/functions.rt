// Functions.
ghost use Rattle.std.specs.Prelude.{◌≡◌, ◌+◌, length, IfOk};
ghost use Rattle.clight_sem.specs.Functions.{has_no_result};
ghost use Rattle.core_gen.specs.Units.{base_of, function_code};

use crate::statements::body_code;
use clight_unit::{Function, Signature, ValueBase};
use core_lang::{Ending, Function as CoreFunction};
use sqlite_items::Items;
use std::alloc::{AllocError, Global};

fn has_no_result(signature: &Signature) -> bool
    ensures { result ≡ has_no_result signature.now }
{
    matches!(signature.result.base, ValueBase::Void) && signature.result.stars == 0
}

/// A function in Core, which is `main` or not.
pub fn function_code(
    alloc: Global,
    is_main: bool,
    function: &Function,
) -> Result<CoreFunction, AllocError>
    ensures { IfOk result (λ f. f ≡ function_code is_main function.now) }
{
    let Ok(parameters) = u32::try_from(function.signature.parameters.len()) else {
        return Err(AllocError);
    };
    let Some(base) = parameters.checked_add(function.registers) else {
        return Err(AllocError);
    };
    let ending = if has_no_result(&function.signature) {
        Ending::Bare
    } else if is_main {
        Ending::Zero
    } else {
        Ending::Stuck
    };
    Ok(CoreFunction {
        symbol: function.symbol,
        is_static: function.is_static,
        parameters,
        locals: Items::from_slice(alloc, function.locals.as_slice())?,
        body: body_code(alloc, base, function.body.as_slice(), 0)?,
        ending,
        need: function.need,
    })
}
