// The names in statements.
ghost use Rattle.std.specs.Prelude.{◌≡◌, ◌++◌, map, OnOk};
ghost use Rattle.std.specs.List.{flat_map};
ghost use Rattle.typing_symbols.specs.Sights.{expr_sights, call_sights, value_sights, simple_sights, maybe_expr_sights, maybe_simple_sights, in_a_row, stmt_sights, arm_sights};

use crate::expressions::{see_expr, see_name};
use crate::names::Names;
use crate::sight::Sights;
use std::alloc::AllocError;
use text_grammar::{Arm, AssignedValue, Call, Expr, Simple, Stmt};

fn see_arguments<'t>(
    out: &mut Sights<'t>,
    hidden: &Names<'t>,
    arguments: &'t [Expr],
) -> Result<(), AllocError>
    ensures { OnOk result (out.new ≡ out.old ++ flat_map (expr_sights hidden.now) arguments.now) }
{
    'arguments: for argument in arguments {
        see_expr(out, hidden, argument)?;
    }
    Ok(())
}

fn see_call<'t>(out: &mut Sights<'t>, hidden: &Names<'t>, call: &'t Call) -> Result<(), AllocError>
    ensures { OnOk result (out.new ≡ out.old ++ call_sights hidden.now call.now) }
{
    see_name(out, hidden, false, call.name.bytes.as_slice())?;
    see_arguments(out, hidden, call.arguments.as_slice())
}

fn see_value<'t>(
    out: &mut Sights<'t>,
    hidden: &Names<'t>,
    value: &'t AssignedValue,
) -> Result<(), AllocError>
    ensures { OnOk result (out.new ≡ out.old ++ value_sights hidden.now value.now) }
{
    match value {
        AssignedValue::Expr(tree) => see_expr(out, hidden, tree),
        AssignedValue::Call(call) => see_call(out, hidden, call),
    }
}

fn see_simple<'t>(
    out: &mut Sights<'t>,
    hidden: &Names<'t>,
    simple: &'t Simple,
) -> Result<(), AllocError>
    ensures { OnOk result (out.new ≡ out.old ++ simple_sights hidden.now simple.now) }
{
    match simple {
        Simple::Call(call) => see_call(out, hidden, call),
        Simple::Assign(_, target, value) => {
            see_expr(out, hidden, target)?;
            see_value(out, hidden, value)
        }
    }
}

fn see_maybe_expr<'t>(
    out: &mut Sights<'t>,
    hidden: &Names<'t>,
    tree: &'t Option<Expr>,
) -> Result<(), AllocError>
    ensures { OnOk result (out.new ≡ out.old ++ maybe_expr_sights hidden.now tree.now) }
{
    match tree {
        None => Ok(()),
        Some(tree) => see_expr(out, hidden, tree),
    }
}

fn see_maybe_simple<'t>(
    out: &mut Sights<'t>,
    hidden: &Names<'t>,
    simple: &'t Option<Simple>,
) -> Result<(), AllocError>
    ensures { OnOk result (out.new ≡ out.old ++ maybe_simple_sights hidden.now simple.now) }
{
    match simple {
        None => Ok(()),
        Some(simple) => see_simple(out, hidden, simple),
    }
}

#[cycle(statement)]
fn see_block<'t>(
    out: &mut Sights<'t>,
    hidden: &Names<'t>,
    body: &'t [Stmt],
) -> Result<(), AllocError>
    ensures { OnOk result (out.new ≡ out.old ++ in_a_row (map (stmt_sights hidden.now) body.now)) }
{
    'body: for statement in body {
        see_statement(out, hidden, statement)?;
    }
    Ok(())
}

#[cycle(statement)]
fn see_arm<'t>(out: &mut Sights<'t>, hidden: &Names<'t>, arm: &'t Arm) -> Result<(), AllocError>
    ensures { OnOk result (out.new ≡ out.old ++ arm_sights hidden.now arm.now) }
{
    see_expr(out, hidden, &arm.test)?;
    see_block(out, hidden, arm.body.as_slice())?;
    Ok(())
}

#[cycle(statement)]
fn see_arms<'t>(out: &mut Sights<'t>, hidden: &Names<'t>, arms: &'t [Arm]) -> Result<(), AllocError>
    ensures { OnOk result (out.new ≡ out.old ++ in_a_row (map (arm_sights hidden.now) arms.now)) }
{
    'arms: for arm in arms {
        see_arm(out, hidden, arm)?;
    }
    Ok(())
}

/// The names in a statement.
#[cycle(statement)]
pub fn see_statement<'t>(
    out: &mut Sights<'t>,
    hidden: &Names<'t>,
    statement: &'t Stmt,
) -> Result<(), AllocError>
    ensures { OnOk result (out.new ≡ out.old ++ stmt_sights hidden.now statement.now) }
{
    match statement {
        Stmt::Empty(_) | Stmt::Break(_) | Stmt::Continue(_) => Ok(()),
        Stmt::Block(_, body) => {
            see_block(out, hidden, body.as_slice())?;
            Ok(())
        }
        Stmt::Simple(simple) => {
            see_simple(out, hidden, simple)?;
            Ok(())
        }
        Stmt::Return(_, tree) => {
            see_maybe_expr(out, hidden, tree)?;
            Ok(())
        }
        Stmt::If(arms, None) => {
            see_arms(out, hidden, arms.as_slice())?;
            Ok(())
        }
        Stmt::If(arms, Some(last)) => {
            see_arms(out, hidden, arms.as_slice())?;
            see_block(out, hidden, last.as_slice())?;
            Ok(())
        }
        Stmt::While(_, test, body) => {
            see_expr(out, hidden, test)?;
            see_block(out, hidden, body.as_slice())?;
            Ok(())
        }
        Stmt::Do(_, body, test) => {
            see_block(out, hidden, body.as_slice())?;
            see_expr(out, hidden, test)?;
            Ok(())
        }
        Stmt::For(_, first, test, step, body) => {
            see_maybe_simple(out, hidden, first)?;
            see_maybe_expr(out, hidden, test)?;
            see_maybe_simple(out, hidden, step)?;
            see_block(out, hidden, body.as_slice())?;
            Ok(())
        }
    }
}
