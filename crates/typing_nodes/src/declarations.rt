// The nodes of declarations and of a unit.
ghost use Rattle.std.specs.Prelude.{◌≡◌, map};
ghost use Rattle.std.specs.List.{sum, sum_by};
ghost use Rattle.typing_nodes.specs.Nodes.{told_nodes, local_nodes, locals_nodes, function_nodes, stmt_nodes, initialiser_nodes, initialised_nodes, object_nodes, external_nodes, unit_nodes};

use crate::counts::{counted, together};
use crate::expressions::expr_nodes;
use crate::statements::stmt_nodes;
use text_grammar::{
    External, Initialised, Initialiser, LocalItem, Locals, ObjectItem, Parameter, Stmt,
};

fn local_nodes(item: &LocalItem) -> u32
    ensures { result ≡ told_nodes (local_nodes item.now) }
{
    match &item.value {
        None => 1,
        Some(local) => together(1, expr_nodes(&local.value)),
    }
}

fn list_nodes(items: &[LocalItem]) -> u32
    ensures { result ≡ told_nodes (sum_by local_nodes items.now) }
{
    let mut count = 0;
    'items: for item in items {
        count = together(count, local_nodes(item));
    }
    count
}

fn locals_nodes(locals: &[Locals]) -> u32
    ensures { result ≡ told_nodes (sum_by locals_nodes locals.now) }
{
    let mut count = 0;
    'locals: for list in locals {
        count = together(count, list_nodes(list.items.as_slice()));
    }
    count
}

fn body_nodes(body: &[Stmt]) -> u32
    ensures { result ≡ told_nodes (sum_by stmt_nodes body.now) }
{
    let mut count = 0;
    'body: for statement in body {
        count = together(count, stmt_nodes(statement));
    }
    count
}

/// The nodes of a function: one, and those of its parameters, locals and statements.
pub fn function_nodes(parameters: &[Parameter], locals: &[Locals], body: &[Stmt]) -> u32
    ensures { result ≡ told_nodes (function_nodes parameters.now locals.now body.now) }
{
    let inner = together(locals_nodes(locals), body_nodes(body));
    let parts = together(counted(parameters.len()), inner);
    together(1, parts)
}

#[cycle(initialiser)]
fn all_initialiser_nodes(items: &[Initialiser]) -> u32
    ensures { result ≡ told_nodes (sum (map initialiser_nodes items.now)) }
{
    let mut count = 0;
    'items: for item in items {
        count = together(count, initialiser_nodes(item));
    }
    count
}

#[cycle(initialiser)]
fn initialiser_nodes(initialiser: &Initialiser) -> u32
    ensures { result ≡ told_nodes (initialiser_nodes initialiser.now) }
{
    match initialiser {
        Initialiser::Expr(tree) => expr_nodes(tree),
        Initialiser::String(..) => 1,
        Initialiser::List(_, items) => all_initialiser_nodes(items.as_slice()),
    }
}

fn initialised_nodes(initialised: &Option<Initialised>) -> u32
    ensures { result ≡ told_nodes (initialised_nodes initialised.now) }
{
    match initialised {
        None => 0,
        Some(initialised) => initialiser_nodes(&initialised.value),
    }
}

/// The nodes of an object's declarator, with its initialiser.
pub fn object_nodes(item: &ObjectItem) -> u32
    ensures { result ≡ told_nodes (object_nodes item.now) }
{
    together(1, initialised_nodes(&item.initialised))
}

fn all_object_nodes(items: &[ObjectItem]) -> u32
    ensures { result ≡ told_nodes (sum_by object_nodes items.now) }
{
    let mut count = 0;
    'items: for item in items {
        count = together(count, object_nodes(item));
    }
    count
}

/// The nodes of a declaration or definition at file scope. A prototype and the definition of a struct have none.
pub fn external_nodes(external: &External) -> u32
    ensures { result ≡ told_nodes (external_nodes external.now) }
{
    match external {
        External::Struct(..) | External::Prototype(_) => 0,
        External::Objects(_, _, items) => all_object_nodes(items.as_slice()),
        External::Function(head, locals, body) => {
            let parameters = head.parameters.as_slice();
            function_nodes(parameters, locals.as_slice(), body.as_slice())
        }
    }
}

/// The nodes of a unit.
pub fn unit_nodes(tree: &[External]) -> u32
    ensures { result ≡ told_nodes (unit_nodes tree.now) }
{
    let mut count = 0;
    'externals: for external in tree {
        count = together(count, external_nodes(external));
    }
    count
}
