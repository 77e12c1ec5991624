// Operators with two operands.
ghost use Rattle.std.specs.Prelude.{◌≡◌, IfOk};
ghost use Rattle.typing_expressions.specs.Judgements.{gives, of_parts};
ghost use Rattle.clight_unit.specs.declared.expression.Expression.TheVariants as expression;
ghost use Rattle.typing_expressions.specs.Operations.{integers_value, moved_by, moved_value, between, compared_value, pointers_value, test_on, joined, tests_value, fitted, binary_value, binary};

use crate::conversions::{needed_size, size_fault};
use crate::judgement::Judgement;
use crate::node::{Node, TypedValue};
use crate::valuing::valued;
use block_mem::{Element, Op};
use clight_unit::{Expression, Test};
use sqlite_items::Boxed;
use std::alloc::{AllocError, Global};
use text_grammar::BinaryOp;
use typing_faults::TypeKind;
use typing_types::{
    CType, Fit, Integer, Layout, compared_pointers, fit_of, int, on_integers, on_pointer,
    result_of, test_of,
};

// An operator of block memory on two values, as a value of a type.
fn combined<'t>(
    alloc: Global,
    ctype: CType<'t>,
    op: Op,
    left: Expression,
    right: Expression,
) -> Result<Judgement<'t>, AllocError>
    ensures { IfOk result (λ j. j ≡ gives ctype.entry (expression.Binary op left right)) }
{
    let left = Boxed::new(alloc, left)?;
    let right = Boxed::new(alloc, right)?;
    Ok(Judgement::gives(ctype, Expression::Binary(op, left, right)))
}

fn integers_value<'t>(
    alloc: Global,
    at: u32,
    op: BinaryOp,
    integer: Integer,
    left: TypedValue<'t>,
    right: TypedValue<'t>,
) -> Result<Judgement<'t>, AllocError>
    ensures { IfOk result (λ j. j ≡ integers_value at op integer left.entry right.entry) }
{
    let Some(meant) = on_integers(op, integer) else {
        return Ok(Judgement::broken(TypeKind::Kind, at));
    };
    let fit = Fit::Integers(integer);
    let ctype = result_of(op, fit, &left.operand.ctype, &right.operand.ctype);
    combined(alloc, ctype, meant, left.expression, right.expression)
}

// A pointer that is moved by a number of elements of a size.
fn moved_by<'t>(
    alloc: Global,
    at: u32,
    op: BinaryOp,
    pointer: TypedValue<'t>,
    count: TypedValue<'t>,
    size: Element,
) -> Result<Judgement<'t>, AllocError>
    ensures { IfOk result (λ j. j ≡ moved_by at op pointer.entry count.entry size) }
{
    let Some(meant) = on_pointer(op, size) else {
        return Ok(Judgement::broken(TypeKind::Kind, at));
    };
    combined(
        alloc,
        pointer.operand.ctype,
        meant,
        pointer.expression,
        count.expression,
    )
}

// A pointer that is moved by a number of its elements.
fn moved_value<'t>(
    alloc: Global,
    structs: &[Option<Layout>],
    at: u32,
    op: BinaryOp,
    pointer: TypedValue<'t>,
    count: TypedValue<'t>,
) -> Result<Judgement<'t>, AllocError>
    ensures { IfOk result (λ j. j ≡ moved_value structs.now at op pointer.entry count.entry) }
{
    let Some(element) = pointer.operand.ctype.element() else {
        return Ok(Judgement::broken(TypeKind::Kind, at));
    };
    match needed_size(structs, &element) {
        Some(size) => moved_by(alloc, at, op, pointer, count, size),
        None => Ok(Judgement::broken(size_fault(structs, &element), at)),
    }
}

// How many elements lie between two pointers.
fn between<'t>(
    alloc: Global,
    structs: &[Option<Layout>],
    at: u32,
    left: TypedValue<'t>,
    right: TypedValue<'t>,
) -> Result<Judgement<'t>, AllocError>
    ensures { IfOk result (λ j. j ≡ between structs.now at left.entry right.entry) }
{
    let Some(element) = left.operand.ctype.element() else {
        return Ok(Judgement::broken(TypeKind::Kind, at));
    };
    match needed_size(structs, &element) {
        Some(size) => {
            let op = Op::PtrDiff(size);
            combined(alloc, int(), op, left.expression, right.expression)
        }
        None => Ok(Judgement::broken(size_fault(structs, &element), at)),
    }
}

fn compared_value<'t>(
    alloc: Global,
    at: u32,
    op: BinaryOp,
    left: TypedValue<'t>,
    right: TypedValue<'t>,
) -> Result<Judgement<'t>, AllocError>
    ensures { IfOk result (λ j. j ≡ compared_value at op left.entry right.entry) }
{
    match compared_pointers(op) {
        Some(meant) => combined(alloc, int(), meant, left.expression, right.expression),
        None => Ok(Judgement::broken(TypeKind::Kind, at)),
    }
}

fn pointers_value<'t>(
    alloc: Global,
    structs: &[Option<Layout>],
    at: u32,
    op: BinaryOp,
    left: TypedValue<'t>,
    right: TypedValue<'t>,
) -> Result<Judgement<'t>, AllocError>
    ensures { IfOk result (λ j. j ≡ pointers_value structs.now at op left.entry right.entry) }
{
    match op {
        BinaryOp::Sub => between(alloc, structs, at, left, right),
        _ => compared_value(alloc, at, op, left, right),
    }
}

/// A value as a condition.
pub(crate) fn test_on(value: TypedValue<'_>) -> Test
    ensures { result ≡ test_on value.entry }
{
    Test {
        differs: test_of(&value.operand.ctype),
        value: value.expression,
    }
}

// `&&`, and else `||`.
fn joined(alloc: Global, op: BinaryOp, left: Test, right: Test) -> Result<Expression, AllocError>
    ensures { IfOk result (λ e. e ≡ joined op left right) }
{
    let left = Boxed::new(alloc, left)?;
    let right = Boxed::new(alloc, right)?;
    match op {
        BinaryOp::AndAnd => Ok(Expression::Both(left, right)),
        _ => Ok(Expression::Either(left, right)),
    }
}

fn tests_value<'t>(
    alloc: Global,
    op: BinaryOp,
    left: TypedValue<'t>,
    right: TypedValue<'t>,
) -> Result<Judgement<'t>, AllocError>
    ensures { IfOk result (λ j. j ≡ tests_value op left.entry right.entry) }
{
    let expression = joined(alloc, op, test_on(left), test_on(right))?;
    Ok(Judgement::gives(int(), expression))
}

// By how the operator takes its operands.
fn fitted<'t>(
    alloc: Global,
    structs: &[Option<Layout>],
    at: u32,
    op: BinaryOp,
    left: TypedValue<'t>,
    right: TypedValue<'t>,
    fit: Fit,
) -> Result<Judgement<'t>, AllocError>
    ensures { IfOk result (λ j. j ≡ fitted structs.now at op left.entry right.entry fit) }
{
    match fit {
        Fit::Integers(integer) => integers_value(alloc, at, op, integer, left, right),
        Fit::PointerFirst => moved_value(alloc, structs, at, op, left, right),
        Fit::PointerSecond => moved_value(alloc, structs, at, op, right, left),
        Fit::Pointers => pointers_value(alloc, structs, at, op, left, right),
        Fit::Tests => tests_value(alloc, op, left, right),
    }
}

fn binary_value<'t>(
    alloc: Global,
    structs: &[Option<Layout>],
    at: u32,
    op: BinaryOp,
    left: TypedValue<'t>,
    right: TypedValue<'t>,
) -> Result<Judgement<'t>, AllocError>
    ensures { IfOk result (λ j. j ≡ binary_value structs.now at op left.entry right.entry) }
{
    match fit_of(op, &left.operand, &right.operand) {
        Some(fit) => fitted(alloc, structs, at, op, left, right, fit),
        None => Ok(Judgement::broken(TypeKind::Kind, at)),
    }
}

// An operator on two expressions that break no rule.
fn on_nodes<'t>(
    alloc: Global,
    structs: &[Option<Layout>],
    at: u32,
    op: BinaryOp,
    left: Node<'t>,
    right: Node<'t>,
) -> Result<Judgement<'t>, AllocError>
    ensures { IfOk result (λ j. j ≡ binary structs.now at op left.entry right.entry) }
{
    let Some(left) = valued(alloc, left)? else {
        return Ok(Judgement::broken(TypeKind::Kind, at));
    };
    let Some(right) = valued(alloc, right)? else {
        return Ok(Judgement::broken(TypeKind::Kind, at));
    };
    binary_value(alloc, structs, at, op, left, right)
}

/// An operator with two operands.
pub(crate) fn binary<'t>(
    alloc: Global,
    structs: &[Option<Layout>],
    at: u32,
    op: BinaryOp,
    left: Option<Node<'t>>,
    right: Option<Node<'t>>,
) -> Result<Option<Judgement<'t>>, AllocError>
    ensures { IfOk result (λ j. j ≡ of_parts (binary structs.now at op) left.entry right.entry) }
{
    let Some(left) = left else {
        return Ok(None);
    };
    let Some(right) = right else {
        return Ok(None);
    };
    Ok(Some(on_nodes(alloc, structs, at, op, left, right)?))
}
