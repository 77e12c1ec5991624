// Assignments, and calls that stand as statements.
ghost use Rattle.std.specs.Prelude.{◌≡◌, Option, None, OnOk, IfOk};
ghost use Rattle.std.specs.Option.{option_map};
ghost use Rattle.typing_faults.specs.Faults.{told};
ghost use Rattle.clight_unit.specs.declared.statement.Simple.TheVariants as typed;
ghost use Rattle.typing_types.specs.Types.{Derived};
ghost use Rattle.typing_types.specs.Meant.{width_of};
ghost use Rattle.typing_expressions.specs.Expressions.{node_of};
ghost use Rattle.typing_statements.specs.Calls.{called, call_rows};
ghost use Rattle.typing_statements.specs.Assignments.{place_rows, target_rows, right_rows, takes_result, result_rows, assign, assignment, call_into, result_to, call_to, call_alone, assigned_simple, simple, value_rows, simple_rows, initialiser_rows, initialised_rows, initialised, assignment_to};

use crate::calls::{CallFound, Called, typed_call};
use crate::gathering::convert;
use block_mem::Op;
use clight_unit::{Assignment, Call as TypedCall, Simple, Target, Value};
use std::alloc::{AllocError, Global};
use text_grammar::{AssignedValue, Call, Expr, Simple as SimpleTree};
use typing_expressions::{Form, Node, target_of, typed};
use typing_faults::{Faults, TypeKind};
use typing_scopes::Scope;
use typing_types::{CType, Operand, assigns, conversion_to, width_of};

// That the left side is no place, or a whole array or struct, is told.
#[tactic(auto, using(typing_faults::specs::laws::Faults::told_append))]
fn check_target(faults: &mut Faults, at: u32, node: &Option<Node<'_>>)
    ensures { faults.new ≡ told faults.old (target_rows at node.now) }
{
    let Some(node) = node else {
        return;
    };
    if let Form::Value(_) = node.form {
        faults.add(TypeKind::NotPlace, at);
    }
    if width_of(&node.ctype).is_none() {
        faults.add(TypeKind::Kind, at);
    }
}

fn assign(target: Option<Target>, value: Option<Value>) -> Option<Assignment>
    ensures { result ≡ assign target value }
{
    let target = target?;
    let value = value?;
    Some(Assignment { target, value })
}

// The right side of an assignment, where it is an expression with this node.
fn assign_to(
    alloc: Global,
    faults: &mut Faults,
    at: u32,
    node: Option<Node<'_>>,
    value: Option<Node<'_>>,
) -> Result<Option<Assignment>, AllocError>
    ensures rows { OnOk result (faults.new ≡ told faults.old (right_rows at node.entry value.entry)) }
    ensures value { IfOk result (λ a. a ≡ assignment node.entry value.entry) }
{
    let Some(node) = node else {
        return Ok(None);
    };
    let value = convert(alloc, faults, at, &node.ctype, value)?;
    Ok(assign(target_of(node), value))
}

// Whether a result of this type may be assigned.
fn takes_result(to: &CType<'_>, ctype: CType<'_>) -> bool
    ensures { result ≡ takes_result to.now ctype.entry }
{
    let operand = Operand {
        ctype,
        is_null: false,
    };
    assigns(to, &operand)
}

fn call_into(to: &CType<'_>, target: Option<Target>, call: Option<Called>) -> Option<TypedCall>
    ensures { result ≡ call_into to.now target call }
{
    let target = target?;
    let call = call?;
    Some(TypedCall {
        target: Some(target),
        conversion: conversion_to(to),
        callee: call.callee,
        arguments: call.arguments,
    })
}

// A result of this type, assigned to what has this node.
fn result_to(call: Option<Called>, node: Node<'_>, ctype: CType<'_>) -> Option<TypedCall>
    ensures { result ≡ result_to call node.entry ctype.entry }
{
    if !takes_result(&node.ctype, ctype) {
        return None;
    }
    let to = node.ctype.copy();
    call_into(&to, target_of(node), call)
}

// That the result of a call may not be assigned is told.
fn check_result(faults: &mut Faults, at: u32, node: &Option<Node<'_>>, found: &CallFound<'_>)
    ensures { faults.new ≡ told faults.old (result_rows at node.now found.now.result) }
{
    let Some(node) = node else {
        return;
    };
    let Some(ctype) = &found.result else {
        return;
    };
    if !takes_result(&node.ctype, ctype.copy()) {
        faults.add(TypeKind::Kind, at);
    }
}

// A call whose result is assigned to what has this node.
fn call_to(node: Option<Node<'_>>, found: CallFound<'_>) -> Option<TypedCall>
    ensures { result ≡ call_to node.entry found.entry.result found.entry.call }
{
    let node = node?;
    let ctype = found.result?;
    result_to(found.call, node, ctype)
}

// The right side of an assignment to what has this node.
#[tactic(auto, using(typing_faults::specs::laws::Faults::told_append))]
fn assigned<'t>(
    alloc: Global,
    scope: &Scope<'t>,
    faults: &mut Faults,
    at: u32,
    node: Option<Node<'t>>,
    value: &AssignedValue,
) -> Result<Option<Simple>, AllocError>
    ensures rows { OnOk result (faults.new ≡ told faults.old (value_rows scope.now at node.entry value.now)) }
    ensures value { IfOk result (λ s. s ≡ assigned_simple scope.now node.entry value.now) }
{
    match value {
        AssignedValue::Expr(tree) => {
            let value = typed(alloc, scope, faults, tree)?;
            match assign_to(alloc, faults, at, node, value)? {
                Some(assignment) => Ok(Some(Simple::Assign(assignment))),
                None => Ok(None),
            }
        }
        AssignedValue::Call(call) => {
            let found = typed_call(alloc, scope, faults, call)?;
            check_result(faults, at, &node, &found);
            match call_to(node, found) {
                Some(call) => Ok(Some(Simple::Call(call))),
                None => Ok(None),
            }
        }
    }
}

// A call that stands alone. Its result, if it has one, goes nowhere.
fn call_alone<'t>(
    alloc: Global,
    scope: &Scope<'t>,
    faults: &mut Faults,
    call: &Call,
) -> Result<Option<Simple>, AllocError>
    ensures rows { OnOk result (faults.new ≡ told faults.old (call_rows scope.now call.now)) }
    ensures value { IfOk result (λ s. s ≡ option_map (λ a. typed.Call (call_alone a)) (called scope.now call.now)) }
{
    match typed_call(alloc, scope, faults, call)?.call {
        Some(call) => Ok(Some(Simple::Call(TypedCall {
            target: None,
            conversion: Op::Keep,
            callee: call.callee,
            arguments: call.arguments,
        }))),
        None => Ok(None),
    }
}

/// An assignment or a call. The rows that it breaks are told.
#[tactic(auto, using(typing_faults::specs::laws::Faults::told_append))]
pub fn typed_simple<'t>(
    alloc: Global,
    scope: &Scope<'t>,
    faults: &mut Faults,
    tree: &SimpleTree,
) -> Result<Option<Simple>, AllocError>
    ensures rows { OnOk result (faults.new ≡ told faults.old (simple_rows scope.now tree.now)) }
    ensures value { IfOk result (λ s. s ≡ simple scope.now tree.now) }
{
    match tree {
        SimpleTree::Call(call) => call_alone(alloc, scope, faults, call),
        SimpleTree::Assign(at, left, value) => {
            let node = typed(alloc, scope, faults, left)?;
            check_target(faults, *at, &node);
            assigned(alloc, scope, faults, *at, node, value)
        }
    }
}

// The initialiser of a local, where its expression has this node.
fn initialise(
    alloc: Global,
    faults: &mut Faults,
    at: u32,
    local: Node<'_>,
    value: Option<Node<'_>>,
) -> Result<Option<Assignment>, AllocError>
    ensures rows { OnOk result (faults.new ≡ told faults.old (initialiser_rows at local.entry (width_of local.entry.ctype) value.entry)) }
    ensures value { IfOk result (λ a. a ≡ assignment_to value.entry local.entry) }
{
    if width_of(&local.ctype).is_none() {
        faults.add(TypeKind::Initialiser, at);
        return Ok(None);
    }
    let value = convert(alloc, faults, at, &local.ctype, value)?;
    Ok(assign(target_of(local), value))
}

/// The initialiser of a local that is this node, behind a `=` at this place. The rows that it breaks are told: `Initialiser` for an
/// array or a struct.
#[tactic(auto, using(typing_faults::specs::laws::Faults::told_append))]
pub fn typed_initialiser<'t>(
    alloc: Global,
    scope: &Scope<'t>,
    faults: &mut Faults,
    at: u32,
    local: Node<'t>,
    tree: &Expr,
) -> Result<Option<Assignment>, AllocError>
    ensures rows { OnOk result (faults.new ≡ told faults.old (initialised_rows scope.now at local.entry tree.now)) }
    ensures value { IfOk result (λ a. a ≡ initialised scope.now local.entry tree.now) }
{
    let value = typed(alloc, scope, faults, tree)?;
    initialise(alloc, faults, at, local, value)
}
