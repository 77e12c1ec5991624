// What can be done with an expression.
ghost use Rattle.std.specs.Prelude.{◌≡◌, IfOk};
ghost use Rattle.typing_expressions.specs.Uses.{assigned_value, assigned, tested, test_of, target_at, target_of};

use crate::binary::test_on;
use crate::node::{Form, Node, TypedValue};
use crate::valuing::valued;
use block_mem::Width;
use clight_unit::{Target, Test, Value};
use std::alloc::{AllocError, Global};
use typing_types::{CType, assigns, conversion_to, width_of};

fn assigned_value(to: &CType<'_>, value: TypedValue<'_>) -> Option<Value>
    ensures { result ≡ assigned_value to.now value.entry }
{
    if !assigns(to, &value.operand) {
        return None;
    }
    Some(Value {
        conversion: conversion_to(to),
        expression: value.expression,
    })
}

/// A value with its conversion to a type. None exactly where it may not be assigned to an object of that type, be an argument for
/// it, or be returned as it. The only error is want of memory.
pub fn assigned(alloc: Global, to: &CType<'_>, node: Node<'_>) -> Result<Option<Value>, AllocError>
    ensures { IfOk result (λ v. v ≡ assigned to.now node.entry) }
{
    match valued(alloc, node)? {
        Some(value) => Ok(assigned_value(to, value)),
        None => Ok(None),
    }
}

fn tested(value: TypedValue<'_>) -> Option<Test>
    ensures { result ≡ tested value.entry }
{
    if value.operand.ctype.is_scalar() {
        Some(test_on(value))
    } else {
        None
    }
}

/// A condition. None exactly where it is neither an integer nor a pointer. The only error is want of memory.
pub fn test_of(alloc: Global, node: Node<'_>) -> Result<Option<Test>, AllocError>
    ensures { IfOk result (λ t. t ≡ test_of node.entry) }
{
    match valued(alloc, node)? {
        Some(value) => Ok(tested(value)),
        None => Ok(None),
    }
}

fn target_at(form: Form, width: Width) -> Option<Target>
    ensures { result ≡ target_at form width }
{
    match form {
        Form::Value(_) => None,
        Form::Temporary(number) => Some(Target::Temporary(number)),
        Form::Place(place) => Some(Target::Place(width, place)),
    }
}

/// Where a value goes that is assigned. None exactly where the expression is a value alone, or a whole array or struct.
pub fn target_of(node: Node<'_>) -> Option<Target>
    ensures { result ≡ target_of node.entry }
{
    let width = width_of(&node.ctype)?;
    target_at(node.form, width)
}
