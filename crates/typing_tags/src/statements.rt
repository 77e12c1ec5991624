// The tags in statements.
ghost use Rattle.std.specs.Prelude.{◌≡◌, ◌++◌, map, OnOk};
ghost use Rattle.std.specs.List.{flat_map};
ghost use Rattle.typing_tags.specs.Tags.{expr_tags, call_tags, value_tags, simple_tags, maybe_expr_tags, maybe_simple_tags, in_a_row, stmt_tags, arm_tags};

use crate::expressions::see_expr;
use crate::tag_list::TagList;
use std::alloc::AllocError;
use text_grammar::{Arm, AssignedValue, Call, Expr, Simple, Stmt};

fn see_arguments<'t>(out: &mut TagList<'t>, arguments: &'t [Expr]) -> Result<(), AllocError>
    ensures { OnOk result (out.new ≡ out.old ++ flat_map expr_tags arguments.now) }
{
    'arguments: for argument in arguments {
        see_expr(out, argument)?;
    }
    Ok(())
}

fn see_call<'t>(out: &mut TagList<'t>, call: &'t Call) -> Result<(), AllocError>
    ensures { OnOk result (out.new ≡ out.old ++ call_tags call.now) }
{
    see_arguments(out, call.arguments.as_slice())
}

fn see_value<'t>(out: &mut TagList<'t>, value: &'t AssignedValue) -> Result<(), AllocError>
    ensures { OnOk result (out.new ≡ out.old ++ value_tags value.now) }
{
    match value {
        AssignedValue::Expr(tree) => see_expr(out, tree),
        AssignedValue::Call(call) => see_call(out, call),
    }
}

fn see_simple<'t>(out: &mut TagList<'t>, simple: &'t Simple) -> Result<(), AllocError>
    ensures { OnOk result (out.new ≡ out.old ++ simple_tags simple.now) }
{
    match simple {
        Simple::Call(call) => see_call(out, call),
        Simple::Assign(_, target, value) => {
            see_expr(out, target)?;
            see_value(out, value)
        }
    }
}

fn see_maybe_expr<'t>(out: &mut TagList<'t>, tree: &'t Option<Expr>) -> Result<(), AllocError>
    ensures { OnOk result (out.new ≡ out.old ++ maybe_expr_tags tree.now) }
{
    match tree {
        None => Ok(()),
        Some(tree) => see_expr(out, tree),
    }
}

fn see_maybe_simple<'t>(out: &mut TagList<'t>, simple: &'t Option<Simple>) -> Result<(), AllocError>
    ensures { OnOk result (out.new ≡ out.old ++ maybe_simple_tags simple.now) }
{
    match simple {
        None => Ok(()),
        Some(simple) => see_simple(out, simple),
    }
}

#[cycle(statement)]
fn see_block<'t>(out: &mut TagList<'t>, body: &'t [Stmt]) -> Result<(), AllocError>
    ensures { OnOk result (out.new ≡ out.old ++ in_a_row (map stmt_tags body.now)) }
{
    'body: for statement in body {
        see_statement(out, statement)?;
    }
    Ok(())
}

#[cycle(statement)]
fn see_arm<'t>(out: &mut TagList<'t>, arm: &'t Arm) -> Result<(), AllocError>
    ensures { OnOk result (out.new ≡ out.old ++ arm_tags arm.now) }
{
    see_expr(out, &arm.test)?;
    see_block(out, arm.body.as_slice())?;
    Ok(())
}

#[cycle(statement)]
fn see_arms<'t>(out: &mut TagList<'t>, arms: &'t [Arm]) -> Result<(), AllocError>
    ensures { OnOk result (out.new ≡ out.old ++ in_a_row (map arm_tags arms.now)) }
{
    'arms: for arm in arms {
        see_arm(out, arm)?;
    }
    Ok(())
}

/// The tags in a statement.
#[cycle(statement)]
pub(crate) fn see_statement<'t>(
    out: &mut TagList<'t>,
    statement: &'t Stmt,
) -> Result<(), AllocError>
    ensures { OnOk result (out.new ≡ out.old ++ stmt_tags statement.now) }
{
    match statement {
        Stmt::Empty(_) | Stmt::Break(_) | Stmt::Continue(_) => Ok(()),
        Stmt::Block(_, body) => {
            see_block(out, body.as_slice())?;
            Ok(())
        }
        Stmt::Simple(simple) => {
            see_simple(out, simple)?;
            Ok(())
        }
        Stmt::Return(_, tree) => {
            see_maybe_expr(out, tree)?;
            Ok(())
        }
        Stmt::If(arms, None) => {
            see_arms(out, arms.as_slice())?;
            Ok(())
        }
        Stmt::If(arms, Some(last)) => {
            see_arms(out, arms.as_slice())?;
            see_block(out, last.as_slice())?;
            Ok(())
        }
        Stmt::While(_, test, body) => {
            see_expr(out, test)?;
            see_block(out, body.as_slice())?;
            Ok(())
        }
        Stmt::Do(_, body, test) => {
            see_block(out, body.as_slice())?;
            see_expr(out, test)?;
            Ok(())
        }
        Stmt::For(_, first, test, step, body) => {
            see_maybe_simple(out, first)?;
            see_maybe_expr(out, test)?;
            see_maybe_simple(out, step)?;
            see_block(out, body.as_slice())?;
            Ok(())
        }
    }
}
