// The tokens of statements.
ghost use Rattle.std.specs.Prelude.{◌≡◌, ◌++◌, map, OnOk};
ghost use Rattle.text_grammar.specs.declared.kind.Kind.TheVariants as k;
ghost use Rattle.text_print.specs.Canonical.{separated, braced, in_a_row, expr_tokens, call_tokens, value_tokens, simple_tokens, maybe_expr_tokens, maybe_simple_tokens, for_tokens, stmt_tokens, arm_tokens};

use crate::expressions::{put_expr, put_parenthesised, put_target};
use crate::pieces::Pieces;
use std::alloc::AllocError;
use text_grammar::{Arm, AssignedValue, Call, Expr, Kind, Simple, Stmt};

fn put_arguments<'a>(out: &mut Pieces<'a>, arguments: &'a [Expr]) -> Result<(), AllocError>
    ensures { OnOk result (out.new ≡ out.old ++ separated k.Comma expr_tokens arguments.now) }
{
    match arguments {
        [] => Ok(()),
        [first, rest @ ..] => {
            put_expr(out, first)?;
            'rest: for argument in rest {
                out.fixed(Kind::Comma)?;
                put_expr(out, argument)?;
            }
            Ok(())
        }
    }
}

fn put_call<'a>(out: &mut Pieces<'a>, call: &'a Call) -> Result<(), AllocError>
    ensures { OnOk result (out.new ≡ out.old ++ call_tokens call.now) }
{
    out.name(call.name.bytes.as_slice())?;
    out.fixed(Kind::LParen)?;
    put_arguments(out, call.arguments.as_slice())?;
    out.fixed(Kind::RParen)
}

fn put_value<'a>(out: &mut Pieces<'a>, value: &'a AssignedValue) -> Result<(), AllocError>
    ensures { OnOk result (out.new ≡ out.old ++ value_tokens value.now) }
{
    match value {
        AssignedValue::Expr(tree) => put_expr(out, tree),
        AssignedValue::Call(call) => put_call(out, call),
    }
}

fn put_simple<'a>(out: &mut Pieces<'a>, simple: &'a Simple) -> Result<(), AllocError>
    ensures { OnOk result (out.new ≡ out.old ++ simple_tokens simple.now) }
{
    match simple {
        Simple::Call(call) => put_call(out, call),
        Simple::Assign(_, target, value) => {
            put_target(out, target)?;
            out.fixed(Kind::Assign)?;
            put_value(out, value)
        }
    }
}

fn put_maybe_expr<'a>(out: &mut Pieces<'a>, tree: &'a Option<Expr>) -> Result<(), AllocError>
    ensures { OnOk result (out.new ≡ out.old ++ maybe_expr_tokens tree.now) }
{
    match tree {
        None => Ok(()),
        Some(tree) => put_expr(out, tree),
    }
}

fn put_maybe_simple<'a>(out: &mut Pieces<'a>, simple: &'a Option<Simple>) -> Result<(), AllocError>
    ensures { OnOk result (out.new ≡ out.old ++ maybe_simple_tokens simple.now) }
{
    match simple {
        None => Ok(()),
        Some(simple) => put_simple(out, simple),
    }
}

// `for` with its three parts in parentheses.
fn put_for_head<'a>(
    out: &mut Pieces<'a>,
    first: &'a Option<Simple>,
    test: &'a Option<Expr>,
    step: &'a Option<Simple>,
) -> Result<(), AllocError>
    ensures { OnOk result (out.new ≡ out.old ++ for_tokens first.now test.now step.now) }
{
    out.fixed(Kind::KwFor)?;
    out.fixed(Kind::LParen)?;
    put_maybe_simple(out, first)?;
    out.fixed(Kind::Semi)?;
    put_maybe_expr(out, test)?;
    out.fixed(Kind::Semi)?;
    put_maybe_simple(out, step)?;
    out.fixed(Kind::RParen)
}

#[cycle(statement)]
fn put_block<'a>(out: &mut Pieces<'a>, body: &'a [Stmt]) -> Result<(), AllocError>
    ensures { OnOk result (out.new ≡ out.old ++ braced (in_a_row (map stmt_tokens body.now))) }
{
    out.fixed(Kind::LBrace)?;
    'body: for statement in body {
        put_statement(out, statement)?;
    }
    out.fixed(Kind::RBrace)?;
    Ok(())
}

#[cycle(statement)]
fn put_arm<'a>(out: &mut Pieces<'a>, arm: &'a Arm) -> Result<(), AllocError>
    ensures { OnOk result (out.new ≡ out.old ++ arm_tokens arm.now) }
{
    out.fixed(Kind::KwIf)?;
    put_parenthesised(out, &arm.test)?;
    put_block(out, arm.body.as_slice())?;
    Ok(())
}

#[cycle(statement)]
fn put_arms<'a>(out: &mut Pieces<'a>, arms: &'a [Arm]) -> Result<(), AllocError>
    ensures { OnOk result (out.new ≡ out.old ++ separated k.KwElse (λ ts. ts) (map arm_tokens arms.now)) }
{
    match arms {
        [] => Ok(()),
        [first, rest @ ..] => {
            put_arm(out, first)?;
            'rest: for arm in rest {
                out.fixed(Kind::KwElse)?;
                put_arm(out, arm)?;
            }
            Ok(())
        }
    }
}

#[cycle(statement)]
pub fn put_statement<'a>(out: &mut Pieces<'a>, statement: &'a Stmt) -> Result<(), AllocError>
    ensures { OnOk result (out.new ≡ out.old ++ stmt_tokens statement.now) }
{
    match statement {
        Stmt::Empty(_) => {
            out.fixed(Kind::Semi)?;
            Ok(())
        }
        Stmt::Block(_, body) => {
            put_block(out, body.as_slice())?;
            Ok(())
        }
        Stmt::Simple(simple) => {
            put_simple(out, simple)?;
            out.fixed(Kind::Semi)?;
            Ok(())
        }
        Stmt::Return(_, tree) => {
            out.fixed(Kind::KwReturn)?;
            put_maybe_expr(out, tree)?;
            out.fixed(Kind::Semi)?;
            Ok(())
        }
        Stmt::Break(_) => {
            out.fixed(Kind::KwBreak)?;
            out.fixed(Kind::Semi)?;
            Ok(())
        }
        Stmt::Continue(_) => {
            out.fixed(Kind::KwContinue)?;
            out.fixed(Kind::Semi)?;
            Ok(())
        }
        Stmt::If(arms, None) => {
            put_arms(out, arms.as_slice())?;
            Ok(())
        }
        Stmt::If(arms, Some(last)) => {
            put_arms(out, arms.as_slice())?;
            out.fixed(Kind::KwElse)?;
            put_block(out, last.as_slice())?;
            Ok(())
        }
        Stmt::While(_, test, body) => {
            out.fixed(Kind::KwWhile)?;
            put_parenthesised(out, test)?;
            put_block(out, body.as_slice())?;
            Ok(())
        }
        Stmt::Do(_, body, test) => {
            out.fixed(Kind::KwDo)?;
            put_block(out, body.as_slice())?;
            out.fixed(Kind::KwWhile)?;
            put_parenthesised(out, test)?;
            out.fixed(Kind::Semi)?;
            Ok(())
        }
        Stmt::For(_, first, test, step, body) => {
            put_for_head(out, first, test, step)?;
            put_block(out, body.as_slice())?;
            Ok(())
        }
    }
}
