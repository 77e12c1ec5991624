// What heads say of functions.
ghost use Rattle.std.specs.Prelude.{◌≡◌, map, length, IfOk};
ghost use Rattle.typing_scopes.specs.Names.{declared_of};
ghost use Rattle.typing_declarations.specs.Reserved.{same_types};
ghost use Rattle.typing_declarations.specs.Functions.{parameter_type, prototype_of, same_prototype, agrees_with, function_differs_from, function_differs};

use crate::objects::same_bool;
use crate::whole::Whole;
use sqlite_items::Items;
use std::alloc::{AllocError, Global};
use text_grammar::{Head, Parameter};
use typing_scopes::{Declared, Entity, Prototype, Scope};
use typing_types::CType;

fn parameter_types<'t>(
    alloc: Global,
    scope: &Scope<'t>,
    parameters: &[Parameter],
) -> Result<Items<CType<'t>>, AllocError>
    ensures { IfOk result (λ types. types ≡ map (parameter_type scope.now) parameters.now) }
{
    let mut types = Items::new(alloc);
    'parameters: for parameter in parameters {
        types.push(scope.plain(&parameter.base, parameter.stars)?)?;
    }
    Ok(types)
}

/// What a head says of its function.
pub(crate) fn prototype_of<'t>(
    alloc: Global,
    whole: &Whole<'t>,
    scope: &Scope<'t>,
    head: &Head,
) -> Result<Prototype<'t>, AllocError>
    ensures { IfOk result (λ p. p ≡ prototype_of whole.now scope.now head.now) }
{
    Ok(Prototype {
        symbol: whole.symbol(head.name.bytes.as_slice()),
        result: scope.plain(&head.base, head.stars)?,
        parameters: parameter_types(alloc, scope, head.parameters.as_slice())?,
    })
}

// Whether lists of one length have the same types.
fn same_items(left: &[CType<'_>], right: &[CType<'_>]) -> bool
    requires { length left.now ≡ length right.now }
    ensures { result ≡ same_types left.now right.now }
{
    'types: for place in 0..left.len() {
        if !left[place].is_same(&right[place]) {
            return false;
        }
    }
    true
}

#[tactic(auto, using(crate::proofs::TypeLists::lengths_differ))]
fn same_types(left: &[CType<'_>], right: &[CType<'_>]) -> bool
    ensures { result ≡ same_types left.now right.now }
{
    left.len() == right.len() && same_items(left, right)
}

fn same_prototype(left: &Prototype<'_>, right: &Prototype<'_>) -> bool
    ensures { result ≡ same_prototype left.now right.now }
{
    left.result.is_same(&right.result)
        && same_types(left.parameters.as_slice(), right.parameters.as_slice())
}

fn agrees_with(prototype: &Prototype<'_>, entity: &Entity<'_>) -> bool
    ensures { result ≡ agrees_with prototype.now entity.now }
{
    match entity {
        Entity::Function(old) => same_prototype(old, prototype),
        Entity::Temporary(..) | Entity::Local(..) | Entity::Object(..) => false,
    }
}

fn function_differs_from(
    is_static: bool,
    prototype: &Prototype<'_>,
    declared: &Declared<'_>,
) -> bool
    ensures { result ≡ function_differs_from is_static prototype.now declared.now }
{
    !agrees_with(prototype, &declared.entity) || !same_bool(declared.is_static, is_static)
}

/// Whether an earlier declaration of the name says otherwise.
pub(crate) fn function_differs(
    scope: &Scope<'_>,
    name: &[u8],
    is_static: bool,
    prototype: &Prototype<'_>,
) -> bool
    ensures { result ≡ function_differs (declared_of scope.now name.now) is_static prototype.now }
{
    match scope.declared(name) {
        Some(declared) => function_differs_from(is_static, prototype, declared),
        None => false,
    }
}
