// Operators with one operand.
ghost use Rattle.std.specs.Prelude.{◌≡◌, IfOk};
ghost use Rattle.typing_expressions.specs.Judgements.{of_part};
ghost use Rattle.typing_expressions.specs.Values.{of_value};
ghost use Rattle.typing_expressions.specs.Operations.{signed_value, not_value, pointed_place, address, unary_value, unary};

use crate::judgement::Judgement;
use crate::node::{Form, Node, TypedValue};
use crate::valuing::valued;
use block_mem::Op;
use clight_unit::{Expression, Place};
use sqlite_items::Boxed;
use std::alloc::{AllocError, Global};
use text_grammar::UnaryOp;
use typing_faults::TypeKind;
use typing_types::{int, not_of};

// `-` and `~`.
fn signed_value<'t>(
    alloc: Global,
    at: u32,
    op: Op,
    value: TypedValue<'t>,
) -> Result<Judgement<'t>, AllocError>
    ensures { IfOk result (λ j. j ≡ signed_value at op value.entry) }
{
    let Some(ctype) = value.operand.ctype.negated() else {
        return Ok(Judgement::broken(TypeKind::Kind, at));
    };
    let expression = Boxed::new(alloc, value.expression)?;
    Ok(Judgement::gives(ctype, Expression::Unary(op, expression)))
}

// `!`.
fn not_value<'t>(alloc: Global, at: u32, value: TypedValue<'t>) -> Result<Judgement<'t>, AllocError>
    ensures { IfOk result (λ j. j ≡ not_value at value.entry) }
{
    if !value.operand.ctype.is_scalar() {
        return Ok(Judgement::broken(TypeKind::Kind, at));
    }
    let op = not_of(&value.operand.ctype);
    let expression = Boxed::new(alloc, value.expression)?;
    Ok(Judgement::gives(int(), Expression::Unary(op, expression)))
}

// `*`.
fn pointed_place<'t>(
    alloc: Global,
    at: u32,
    value: TypedValue<'t>,
) -> Result<Judgement<'t>, AllocError>
    ensures { IfOk result (λ j. j ≡ pointed_place at value.entry) }
{
    let Some(ctype) = value.operand.ctype.pointed() else {
        return Ok(Judgement::broken(TypeKind::Kind, at));
    };
    let expression = Boxed::new(alloc, value.expression)?;
    Ok(Judgement::fits(ctype, Form::Place(Place::Deref(expression))))
}

// `&`.
fn address<'t>(alloc: Global, at: u32, node: Node<'t>) -> Result<Judgement<'t>, AllocError>
    ensures { IfOk result (λ j. j ≡ address at node.entry) }
{
    let Node { ctype, form, .. } = node;
    let Form::Place(place) = form else {
        return Ok(Judgement::broken(TypeKind::NotPlace, at));
    };
    let Some(pointer) = ctype.pointer_to() else {
        return Err(AllocError);
    };
    let place = Boxed::new(alloc, place)?;
    Ok(Judgement::gives(pointer, Expression::Address(place)))
}

// An operator other than `&` on a value.
fn on_value<'t>(
    alloc: Global,
    at: u32,
    op: UnaryOp,
    value: TypedValue<'t>,
) -> Result<Judgement<'t>, AllocError>
    ensures { IfOk result (λ j. j ≡ unary_value at op value.entry) }
{
    match op {
        UnaryOp::Neg => signed_value(alloc, at, Op::Neg, value),
        UnaryOp::Flip => signed_value(alloc, at, Op::Flip, value),
        UnaryOp::Not => not_value(alloc, at, value),
        UnaryOp::Deref => pointed_place(alloc, at, value),
        UnaryOp::Address => Ok(Judgement::broken(TypeKind::NotPlace, at)),
    }
}

/// An operator with one operand.
pub(crate) fn unary<'t>(
    alloc: Global,
    at: u32,
    op: UnaryOp,
    part: Option<Node<'t>>,
) -> Result<Option<Judgement<'t>>, AllocError>
    ensures { IfOk result (λ j. j ≡ of_part (unary at op) part.entry) }
{
    let Some(node) = part else {
        return Ok(None);
    };
    if let UnaryOp::Address = op {
        return Ok(Some(address(alloc, at, node)?));
    }
    match valued(alloc, node)? {
        Some(value) => Ok(Some(on_value(alloc, at, op, value)?)),
        None => Ok(Some(Judgement::broken(TypeKind::Kind, at))),
    }
}
