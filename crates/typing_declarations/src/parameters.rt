// Parameters.
ghost use Rattle.std.specs.Prelude.{◌≡◌, ◌+◌, length, OnOk, IfOk};
ghost use Rattle.typing_faults.specs.Faults.{told};
ghost use Rattle.typing_declarations.specs.Functions.{is_unfit_parameter, own_rows, parameter_name_rows, parameter_rows, parameter_named, parameter_behind, parameters_behind, parameters_rows};

use crate::reserved::is_reserved;
use crate::rows::add_if;
use std::alloc::AllocError;
use text_grammar::{NameAt, Parameter};
use typing_faults::{Faults, TypeKind};
use typing_scopes::{Entity, Scope};
use typing_types::CType;

// Whether it is `void` or a struct.
fn is_unfit_parameter(ctype: &CType<'_>) -> bool
    ensures { result ≡ is_unfit_parameter ctype.now }
{
    ctype.is_void() || ctype.is_of_structs()
}

// Tells the rules that a name of a parameter breaks.
#[tactic(auto, using(typing_faults::specs::laws::Faults::told_append))]
fn tell_name(faults: &mut Faults, scope: &Scope<'_>, name: &NameAt)
    ensures { faults.new ≡ told faults.old (own_rows scope.now name.now) }
{
    let bytes = name.bytes.as_slice();
    add_if(faults, scope.is_own(bytes), TypeKind::Twice, name.at);
    add_if(faults, is_reserved(bytes), TypeKind::Reserved, name.at);
}

// The name of a parameter of this number, where it has one.
fn add_name<'t>(
    faults: &mut Faults,
    scope: &mut Scope<'t>,
    number: u32,
    name: &'t Option<NameAt>,
    ctype: CType<'t>,
) -> Result<(), AllocError>
    ensures scope { OnOk result (scope.new ≡ parameter_named scope.old number name.now ctype.entry) }
    ensures told { OnOk result (faults.new ≡ told faults.old (parameter_name_rows scope.old name.now)) }
{
    match name {
        None => Ok(()),
        Some(name) => {
            tell_name(faults, scope, name);
            scope.add_own(name.bytes.as_slice(), Entity::Temporary(number, ctype))
        }
    }
}

#[tactic(auto, using(typing_faults::specs::laws::Faults::told_append))]
fn add_parameter<'t>(
    faults: &mut Faults,
    scope: &mut Scope<'t>,
    number: u32,
    parameter: &'t Parameter,
) -> Result<(), AllocError>
    ensures scope { OnOk result (scope.new ≡ parameter_behind scope.old number parameter.now) }
    ensures told { OnOk result (faults.new ≡ told faults.old (parameter_rows scope.old parameter.now)) }
{
    let ctype = scope.plain(&parameter.base, parameter.stars)?;
    let unfit = is_unfit_parameter(&ctype);
    add_if(faults, unfit, TypeKind::Kind, parameter.base.at);
    add_name(faults, scope, number, &parameter.name, ctype)
}

/// The next number; more than 2^32 - 1 are want of memory.
pub(crate) fn next(number: u32) -> Result<u32, AllocError>
    ensures { IfOk result (λ n. n ≡ number + 1) }
{
    number.checked_add(1).ok_or(AllocError)
}

/// The parameters of a function. Answers how many there are.
#[tactic(auto, using(typing_faults::specs::laws::Faults::told_append))]
pub(crate) fn add_parameters<'t>(
    faults: &mut Faults,
    scope: &mut Scope<'t>,
    parameters: &'t [Parameter],
) -> Result<u32, AllocError>
    ensures count { IfOk result (λ n. n ≡ length parameters.now) }
    ensures scope { OnOk result (scope.new ≡ parameters_behind scope.old 0 parameters.now) }
    ensures told { OnOk result (faults.new ≡ told faults.old (parameters_rows scope.old 0 parameters.now)) }
{
    let mut number = 0;
    'parameters: for parameter in parameters {
        add_parameter(faults, scope, number, parameter)?;
        number = next(number)?;
    }
    Ok(number)
}
