// The definitions of functions.
ghost use Rattle.std.specs.Prelude.{◌≡◌, ◌≤◌, OnOk, IfOk};
ghost use Rattle.typing_faults.specs.Faults.{told};
ghost use Rattle.typing_bodies.specs.Functions.{need_of, nodes_of, defined, function_with, function_rows, function_behind, function_of};

use crate::locals::open_locals;
use crate::prologue::Prologue;
use crate::signatures::signature_of;
use clight_unit::{Function, Statement};
use sqlite_items::Items;
use std::alloc::{AllocError, Global};
use text_grammar::{Head, Locals, Stmt};
use typing_declarations::{Sum, Whole, begin_function, end_function};
use typing_faults::Faults;
use typing_nodes::function_nodes;
use typing_scopes::Scope;
use typing_statements::{Gathered, typed_body};

/// The most parameters whose need can be counted. A text has fewer.
const COUNTED: usize = 0x0FFF_FFFF;

// The stack that a call needs, in bytes.
fn need_of(parameters: usize, blocks: Sum, nodes: u32) -> Result<u32, AllocError>
    requires { nodes ≤ 65537 }
    ensures { IfOk result (λ need. need ≡ need_of parameters blocks nodes) }
{
    if parameters > COUNTED {
        return Err(AllocError);
    }
    Ok(64 + 4 * parameters as u32 + (blocks.bytes() + 16 * nodes))
}

// The function of a head, locals and statements that break no rule.
fn defined(
    alloc: Global,
    whole: &Whole<'_>,
    head: &Head,
    prologue: Prologue,
    nodes: u32,
    statements: Option<Items<Statement>>,
) -> Result<Option<Function>, AllocError>
    requires { nodes ≤ 65537 }
    ensures { IfOk result (λ f. f ≡ function_with whole.now head.now prologue nodes statements) }
{
    let (Some(mut body), Some(statements)) = (prologue.values.list(), statements) else {
        return Ok(None);
    };
    body.append(statements)?;
    let symbol = whole.symbol(head.name.bytes.as_slice());
    let parameters = head.parameters.as_slice().len();
    let registers = (prologue.frame.temporaries as usize).saturating_sub(parameters) as u32;
    Ok(Some(Function {
        symbol,
        is_static: whole.symbols.is_local(symbol),
        signature: signature_of(alloc, head)?,
        registers,
        locals: prologue.sizes,
        body,
        nodes,
        need: need_of(parameters, prologue.frame.sum, nodes)?,
    }))
}

/// The definition of a function. Its name is visible behind it, and in it; the rows that it breaks are told. Answers the function,
/// where its locals' initialisers and its statements break none, and its nodes in any case. The only error is want of memory.
#[tactic(auto, using(typing_faults::specs::laws::Faults::told_append))]
pub fn typed_function<'t>(
    alloc: Global,
    whole: &Whole<'t>,
    scope: &mut Scope<'t>,
    faults: &mut Faults,
    head: &'t Head,
    locals: &'t [Locals],
    body: &'t [Stmt],
) -> Result<(Option<Function>, u32), AllocError>
    ensures rows { OnOk result (faults.new ≡ told faults.old (function_rows whole.now scope.old head.now locals.now body.now)) }
    ensures scope { OnOk result (scope.new ≡ function_behind whole.now scope.old head.now locals.now) }
    ensures function { IfOk result (λ f. f.0 ≡ function_of whole.now scope.old head.now locals.now body.now) }
    ensures nodes { IfOk result (λ f. f.1 ≡ nodes_of head.now locals.now body.now) }
{
    let result = scope.plain(&head.base, head.stars)?;
    let mut prologue = Prologue {
        frame: begin_function(alloc, whole, faults, scope, head)?,
        sizes: Items::new(alloc),
        values: Gathered::new(alloc),
    };
    open_locals(alloc, scope, faults, &mut prologue, locals)?;
    let statements = typed_body(alloc, scope, faults, &result, false, body)?;
    end_function(alloc, scope);
    let nodes = function_nodes(head.parameters.as_slice(), locals, body);
    let function = defined(alloc, whole, head, prologue, nodes, statements)?;
    Ok((function, nodes))
}
