// Calls.
ghost use Rattle.std.specs.Prelude.{◌≡◌, [], ◌∷◌, length, drop, slice_get, Some, OnOk, IfOk};
ghost use Rattle.std.specs.Option.{option_copied, option_map};
ghost use Rattle.typing_scopes.specs.declared.entity.Prototype.{Prototype as PrototypeValue};
ghost use Rattle.typing_faults.specs.Faults.{told};
ghost use Rattle.typing_scopes.specs.Names.{entity_of};
ghost use Rattle.typing_statements.specs.Calls.{prototype_at, callee_rows, count_rows, parameters_of, argument, argument_rows, arguments, arguments_rows, result_type, called, call_rows, called_as};

use crate::gathering::{Gathered, convert};
use clight_unit::Value;
use sqlite_items::Items;
use std::alloc::{AllocError, Global};
use text_grammar::{Call, Expr, NameAt};
use typing_expressions::{Node, text_place, typed};
use typing_faults::{Faults, TypeKind};
use typing_scopes::{Entity, Prototype, Scope};
use typing_types::CType;

/// A call that breaks no rule.
#[derive(Drop)]
pub struct Called {
    /// The function's symbol.
    pub callee: u32,
    pub arguments: Items<Value>,
}

/// What is found at a call.
#[derive(Drop)]
pub struct CallFound<'t> {
    /// The type of its result, where the function is declared.
    pub result: Option<CType<'t>>,
    /// What it is, where it breaks no rule.
    pub call: Option<Called>,
}

// The function that is called.
fn callee<'s, 't>(
    scope: &'s Scope<'t>,
    faults: &mut Faults,
    name: &NameAt,
) -> Option<&'s Prototype<'t>>
    ensures prototype { option_copied result ≡ prototype_at (entity_of scope.now name.now.bytes) }
    ensures rows { faults.new ≡ told faults.old (callee_rows name.now.at (entity_of scope.now name.now.bytes)) }
{
    match scope.entity(name.bytes.as_slice()) {
        Some(Entity::Function(prototype)) => Some(prototype),
        Some(_) => {
            faults.add(TypeKind::Kind, name.at);
            None
        }
        None => {
            faults.add(TypeKind::Unknown, name.at);
            None
        }
    }
}

// The type that the next argument is converted to.
fn next_type<'s, 't>(left: &'s [CType<'t>]) -> Option<&'s CType<'t>>
    ensures { option_copied result ≡ slice_get left.now 0 }
{
    left.first()
}

// The types for the arguments behind it.
fn types_behind<'s, 't>(left: &'s [CType<'t>]) -> &'s [CType<'t>]
    ensures { result.now ≡ drop 1 left.now }
{
    match left {
        [] => left,
        [_, rest @ ..] => rest,
    }
}

// An argument, where its expression has this node.
fn pass(
    alloc: Global,
    faults: &mut Faults,
    at: u32,
    to: Option<&CType<'_>>,
    node: Option<Node<'_>>,
) -> Result<Option<Value>, AllocError>
    ensures rows { OnOk result (faults.new ≡ told faults.old (argument_rows at (option_copied to.entry) node.entry)) }
    ensures value { IfOk result (λ v. v ≡ argument (option_copied to.entry) node.entry) }
{
    match to {
        Some(to) => convert(alloc, faults, at, to, node),
        None => Ok(None),
    }
}

// The arguments of a call to a function with these parameters.
#[tactic(auto, using(typing_faults::specs::laws::Faults::told_append))]
fn pass_all<'t>(
    alloc: Global,
    scope: &Scope<'t>,
    faults: &mut Faults,
    parameters: &[CType<'t>],
    trees: &[Expr],
) -> Result<Option<Items<Value>>, AllocError>
    ensures rows { OnOk result (faults.new ≡ told faults.old (arguments_rows scope.now parameters.now trees.now)) }
    ensures values { IfOk result (λ vs. vs ≡ arguments scope.now (Some []) parameters.now trees.now) }
{
    let mut left = parameters;
    let mut values = Gathered::new(alloc);
    'trees: for tree in trees {
        let node = typed(alloc, scope, faults, tree)?;
        let value = pass(alloc, faults, text_place(tree), next_type(left), node)?;
        values.add(value)?;
        left = types_behind(left);
    }
    Ok(values.list())
}

// What a call is, with these arguments.
fn called_as(
    prototype: Option<&Prototype<'_>>,
    count: usize,
    arguments: Option<Items<Value>>,
) -> Option<Called>
    ensures { result ≡ called_as (option_copied prototype.entry) count arguments }
{
    let prototype = prototype?;
    let arguments = arguments?;
    if prototype.parameters.len() != count {
        return None;
    }
    Some(Called {
        callee: prototype.symbol,
        arguments,
    })
}

// That the number of arguments differs is told.
fn count(faults: &mut Faults, at: u32, count: usize, prototype: Option<&Prototype<'_>>)
    ensures { faults.new ≡ told faults.old (count_rows at count (option_copied prototype.entry)) }
{
    if let Some(prototype) = prototype {
        if prototype.parameters.len() != count {
            faults.add(TypeKind::Count, at);
        }
    }
}

// The arguments of a call to this function. One that is not declared has no parameters here.
fn pass_to<'t>(
    alloc: Global,
    scope: &Scope<'t>,
    faults: &mut Faults,
    prototype: Option<&Prototype<'t>>,
    trees: &[Expr],
) -> Result<Option<Items<Value>>, AllocError>
    ensures rows { OnOk result (faults.new ≡ told faults.old (arguments_rows scope.now (parameters_of (option_copied prototype.entry)) trees.now)) }
    ensures values { IfOk result (λ vs. vs ≡ arguments scope.now (Some []) (parameters_of (option_copied prototype.entry)) trees.now) }
{
    match prototype {
        Some(prototype) => {
            let parameters = prototype.parameters.as_slice();
            pass_all(alloc, scope, faults, parameters, trees)
        }
        None => pass_all(alloc, scope, faults, &[], trees),
    }
}

fn result_of<'t>(prototype: Option<&Prototype<'t>>) -> Option<CType<'t>>
    ensures { result ≡ option_map (λ (f : PrototypeValue). f.result) (option_copied prototype.entry) }
{
    Some(prototype?.result.copy())
}

/// A call. The rows that it breaks are told.
#[tactic(auto, using(typing_faults::specs::laws::Faults::told_append))]
pub fn typed_call<'t>(
    alloc: Global,
    scope: &Scope<'t>,
    faults: &mut Faults,
    call: &Call,
) -> Result<CallFound<'t>, AllocError>
    ensures rows { OnOk result (faults.new ≡ told faults.old (call_rows scope.now call.now)) }
    ensures gives { IfOk result (λ f. f.result ≡ result_type scope.now call.now) }
    ensures call { IfOk result (λ f. f.call ≡ called scope.now call.now) }
{
    let trees = call.arguments.as_slice();
    let prototype = callee(scope, faults, &call.name);
    count(faults, call.name.at, trees.len(), prototype);
    let arguments = pass_to(alloc, scope, faults, prototype, trees)?;
    Ok(CallFound {
        result: result_of(prototype),
        call: called_as(prototype, trees.len(), arguments),
    })
}
