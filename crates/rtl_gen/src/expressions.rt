// The nodes of expressions.
ghost use Rattle.std.specs.Prelude.{◌≡◌, ◌+◌, IfOk};
ghost use Rattle.rtl_gen.specs.Trees.{tree};
ghost use Rattle.rtl_gen.specs.Translation.{push, home, takes_one, other_home, lay_zero, lay_into, lay_operand};

use block_mem::Op;
use core_lang::Expression;
use rtl_lang::RtlNode;
use std::alloc::AllocError;

/// The next number. Where there is none, memory has run out.
pub fn above(number: u32) -> Result<u32, AllocError>
    ensures { IfOk result (λ next. next ≡ number + 1) }
{
    match number.checked_add(1) {
        Some(next) => Ok(next),
        None => Err(AllocError),
    }
}

/// So many numbers on. Where there is no such number, memory has run out.
pub fn behind(number: u32, count: usize) -> Result<u32, AllocError>
    ensures { IfOk result (λ last. last ≡ number + count) }
{
    let Ok(count) = u32::try_from(count) else {
        return Err(AllocError);
    };
    match number.checked_add(count) {
        Some(last) => Ok(last),
        None => Err(AllocError),
    }
}

/// Puts a node behind the others, and gives its number.
pub fn push(graph: &mut Vec<RtlNode>, node: RtlNode) -> Result<u32, AllocError>
    ensures { IfOk result (λ number. (number, graph.new.items) ≡ push graph.old.items node) }
{
    let Ok(number) = u32::try_from(graph.len()) else {
        return Err(AllocError);
    };
    graph.push(node)?;
    Ok(number)
}

/// The temporary where the value of an operand is.
pub fn home(scratch: u32, e: &Expression) -> u32
    ensures { result ≡ home scratch (tree e.now) }
{
    match e {
        Expression::Temporary(number) => *number,
        _ => scratch,
    }
}

// The operator looks at one operand alone.
fn takes_one(op: Op) -> bool
    ensures { result ≡ takes_one op }
{
    matches!(
        op,
        Op::Keep | Op::LowSigned | Op::LowUnsigned | Op::Neg | Op::Flip | Op::Not | Op::PtrNot
    )
}

// The right operand of an operator that has one in Core.
fn other_home(alone: bool, scratch: u32, e: &Expression) -> Result<u32, AllocError>
    ensures { IfOk result (λ other. other ≡ other_home alone scratch (tree e.now)) }
{
    if alone {
        Ok(home(scratch, e))
    } else {
        above(scratch)
    }
}

// Its node, if it is 0.
fn zero(graph: &mut Vec<RtlNode>, alone: bool, to: u32, next: u32) -> Result<u32, AllocError>
    ensures { IfOk result (λ number. (number, graph.new.items) ≡ lay_zero alone (next, graph.old.items) to) }
{
    if alone {
        Ok(next)
    } else {
        push(graph, RtlNode::Const { value: 0, to, next })
    }
}

/// The nodes that bring a value into a temporary.
#[cycle(expression)]
pub fn into(
    graph: &mut Vec<RtlNode>,
    e: &Expression,
    scratch: u32,
    to: u32,
    next: u32,
) -> Result<u32, AllocError>
    ensures { IfOk result (λ number. (number, graph.new.items) ≡ lay_into graph.old.items (tree e.now) scratch to next) }
{
    match e {
        Expression::Constant(value) => push(
            graph,
            RtlNode::Const {
                value: *value,
                to,
                next,
            },
        ),
        Expression::Temporary(number) => push(
            graph,
            RtlNode::Apply {
                op: Op::Keep,
                left: *number,
                right: *number,
                to,
                next,
            },
        ),
        Expression::Address(name, plus) => push(
            graph,
            RtlNode::Address {
                name: *name,
                plus: *plus,
                to,
                next,
            },
        ),
        Expression::Local(index) => push(
            graph,
            RtlNode::Local {
                index: *index,
                to,
                next,
            },
        ),
        Expression::Load(width, place) => {
            let node = RtlNode::Load {
                width: *width,
                place: home(scratch, place.get()),
                to,
                next,
            };
            let last = push(graph, node)?;
            operand(graph, place.get(), scratch, last)
        }
        Expression::Unary(op, value) => {
            let alone = takes_one(*op);
            let node = RtlNode::Apply {
                op: *op,
                left: home(scratch, value.get()),
                right: other_home(alone, scratch, value.get())?,
                to,
                next,
            };
            let last = push(graph, node)?;
            let second = zero(graph, alone, above(scratch)?, last)?;
            operand(graph, value.get(), scratch, second)
        }
        Expression::Binary(op, left, right) => {
            let other = above(scratch)?;
            let node = RtlNode::Apply {
                op: *op,
                left: home(scratch, left.get()),
                right: home(other, right.get()),
                to,
                next,
            };
            let last = push(graph, node)?;
            let second = operand(graph, right.get(), other, last)?;
            operand(graph, left.get(), scratch, second)
        }
    }
}

/// The nodes that bring a value to where its user finds it.
#[cycle(expression)]
pub fn operand(
    graph: &mut Vec<RtlNode>,
    e: &Expression,
    scratch: u32,
    next: u32,
) -> Result<u32, AllocError>
    ensures { IfOk result (λ number. (number, graph.new.items) ≡ lay_operand (next, graph.old.items) (tree e.now) scratch) }
{
    match e {
        Expression::Temporary(_) => Ok(next),
        _ => into(graph, e, scratch, scratch, next),
    }
}
