// The nodes of statements.
ghost use Rattle.std.specs.Prelude.{◌≡◌, map};
ghost use Rattle.std.specs.List.{sum, sum_by};
ghost use Rattle.typing_nodes.specs.Nodes.{told_nodes, expr_nodes, call_nodes, value_nodes, simple_nodes, maybe_expr_nodes, maybe_simple_nodes, stmt_nodes, arm_nodes};

use crate::counts::together;
use crate::expressions::expr_nodes;
use text_grammar::{Arm, AssignedValue, Call, Expr, Simple, Stmt};

fn argument_nodes(arguments: &[Expr]) -> u32
    ensures { result ≡ told_nodes (sum_by expr_nodes arguments.now) }
{
    let mut count = 0;
    'arguments: for argument in arguments {
        count = together(count, expr_nodes(argument));
    }
    count
}

fn value_nodes(value: &AssignedValue) -> u32
    ensures { result ≡ told_nodes (value_nodes value.now) }
{
    match value {
        AssignedValue::Expr(tree) => expr_nodes(tree),
        AssignedValue::Call(call) => argument_nodes(call.arguments.as_slice()),
    }
}

fn simple_nodes(simple: &Simple) -> u32
    ensures { result ≡ told_nodes (simple_nodes simple.now) }
{
    match simple {
        Simple::Call(call) => together(1, argument_nodes(call.arguments.as_slice())),
        Simple::Assign(_, target, value) => {
            let parts = together(expr_nodes(target), value_nodes(value));
            together(1, parts)
        }
    }
}

fn maybe_expr_nodes(tree: &Option<Expr>) -> u32
    ensures { result ≡ told_nodes (maybe_expr_nodes tree.now) }
{
    match tree {
        None => 0,
        Some(tree) => expr_nodes(tree),
    }
}

fn maybe_simple_nodes(simple: &Option<Simple>) -> u32
    ensures { result ≡ told_nodes (maybe_simple_nodes simple.now) }
{
    match simple {
        None => 0,
        Some(simple) => simple_nodes(simple),
    }
}

#[cycle(statement)]
fn block_nodes(body: &[Stmt]) -> u32
    ensures { result ≡ told_nodes (sum (map stmt_nodes body.now)) }
{
    let mut count = 0;
    'body: for statement in body {
        count = together(count, stmt_nodes(statement));
    }
    count
}

#[cycle(statement)]
fn arm_nodes(arm: &Arm) -> u32
    ensures { result ≡ told_nodes (arm_nodes arm.now) }
{
    let parts = together(expr_nodes(&arm.test), block_nodes(arm.body.as_slice()));
    together(1, parts)
}

#[cycle(statement)]
fn all_arm_nodes(arms: &[Arm]) -> u32
    ensures { result ≡ told_nodes (sum (map arm_nodes arms.now)) }
{
    let mut count = 0;
    'arms: for arm in arms {
        count = together(count, arm_nodes(arm));
    }
    count
}

/// The nodes of a statement.
#[cycle(statement)]
pub fn stmt_nodes(statement: &Stmt) -> u32
    ensures { result ≡ told_nodes (stmt_nodes statement.now) }
{
    match statement {
        Stmt::Empty(_) | Stmt::Break(_) | Stmt::Continue(_) => 1,
        Stmt::Block(_, body) => together(1, block_nodes(body.as_slice())),
        Stmt::Simple(simple) => simple_nodes(simple),
        Stmt::Return(_, tree) => together(1, maybe_expr_nodes(tree)),
        Stmt::If(arms, None) => all_arm_nodes(arms.as_slice()),
        Stmt::If(arms, Some(last)) => {
            together(all_arm_nodes(arms.as_slice()), block_nodes(last.as_slice()))
        }
        Stmt::While(_, test, body) | Stmt::Do(_, body, test) => {
            let parts = together(expr_nodes(test), block_nodes(body.as_slice()));
            together(1, parts)
        }
        Stmt::For(_, first, test, step, body) => {
            let inner = together(maybe_simple_nodes(step), block_nodes(body.as_slice()));
            let tested = together(maybe_expr_nodes(test), inner);
            let parts = together(maybe_simple_nodes(first), tested);
            together(1, parts)
        }
    }
}
