// Statements.
ghost use Rattle.std.specs.Prelude.{◌≡◌, true, map, OnOk, IfOk};
ghost use Rattle.typing_faults.specs.Faults.{told};
ghost use Rattle.typing_statements.specs.Statements.{all_rows, block, arm_finding, stmt_finding};

use crate::assignments::typed_simple;
use crate::gathering::Gathered;
use crate::parts::{
    arm_of, do_of, for_of, if_of, leave, maybe_simple, maybe_test, typed_return, typed_test,
    while_of,
};
use clight_unit::{Arm, Statement};
use sqlite_items::Items;
use std::alloc::{AllocError, Global};
use text_grammar::{Arm as ArmTree, Expr, Simple as SimpleTree, Stmt};
use typing_faults::Faults;
use typing_scopes::Scope;
use typing_types::CType;

/// A list of statements of a function whose result has this type. The rows that they break are told.
#[cycle(statement)]
#[tactic(auto, using(typing_faults::specs::laws::Faults::told_append))]
pub fn typed_body<'t>(
    alloc: Global,
    scope: &Scope<'t>,
    faults: &mut Faults,
    result_type: &CType<'t>,
    in_loop: bool,
    body: &[Stmt],
) -> Result<Option<Items<Statement>>, AllocError>
    ensures rows { OnOk result (faults.new ≡ told faults.old (all_rows (map (stmt_finding scope.now result_type.now) body.now) in_loop)) }
    ensures body { IfOk result (λ ss. ss ≡ block (map (stmt_finding scope.now result_type.now) body.now) in_loop) }
{
    let mut statements = Gathered::new(alloc);
    'body: for statement in body {
        let found = typed_statement(alloc, scope, faults, result_type, in_loop, statement)?;
        statements.add(found)?;
    }
    Ok(statements.list())
}

#[cycle(statement)]
#[tactic(auto, using(typing_faults::specs::laws::Faults::told_append))]
fn typed_arm<'t>(
    alloc: Global,
    scope: &Scope<'t>,
    faults: &mut Faults,
    result_type: &CType<'t>,
    in_loop: bool,
    arm: &ArmTree,
) -> Result<Option<Arm>, AllocError>
    ensures rows { OnOk result (faults.new ≡ told faults.old (arm_finding scope.now result_type.now arm.now in_loop).rows) }
    ensures arm { IfOk result (λ a. a ≡ (arm_finding scope.now result_type.now arm.now in_loop).item) }
{
    let test = typed_test(alloc, scope, faults, &arm.test)?;
    let body = typed_body(
        alloc,
        scope,
        faults,
        result_type,
        in_loop,
        arm.body.as_slice(),
    )?;
    Ok(arm_of(test, body))
}

#[cycle(statement)]
#[tactic(auto, using(typing_faults::specs::laws::Faults::told_append))]
fn typed_arms<'t>(
    alloc: Global,
    scope: &Scope<'t>,
    faults: &mut Faults,
    result_type: &CType<'t>,
    in_loop: bool,
    arms: &[ArmTree],
) -> Result<Option<Items<Arm>>, AllocError>
    ensures rows { OnOk result (faults.new ≡ told faults.old (all_rows (map (arm_finding scope.now result_type.now) arms.now) in_loop)) }
    ensures arms { IfOk result (λ xs. xs ≡ block (map (arm_finding scope.now result_type.now) arms.now) in_loop) }
{
    let mut found = Gathered::new(alloc);
    'arms: for arm in arms {
        let arm = typed_arm(alloc, scope, faults, result_type, in_loop, arm)?;
        found.add(arm)?;
    }
    Ok(found.list())
}

/// A statement of a function whose result has this type. `break` and `continue` stand in a loop alone. The rows that it breaks are
/// told. The only error is want of memory.
#[cycle(statement)]
#[tactic(auto, using(typing_faults::specs::laws::Faults::told_append))]
pub fn typed_statement<'t>(
    alloc: Global,
    scope: &Scope<'t>,
    faults: &mut Faults,
    result_type: &CType<'t>,
    in_loop: bool,
    statement: &Stmt,
) -> Result<Option<Statement>, AllocError>
    ensures rows { OnOk result (faults.new ≡ told faults.old (stmt_finding scope.now result_type.now statement.now in_loop).rows) }
    ensures statement { IfOk result (λ s. s ≡ (stmt_finding scope.now result_type.now statement.now in_loop).item) }
{
    match statement {
        Stmt::Empty(_) => Ok(Some(Statement::Empty)),
        Stmt::Block(_, body) => {
            let body = typed_body(alloc, scope, faults, result_type, in_loop, body.as_slice())?;
            match body {
                Some(body) => Ok(Some(Statement::Block(body))),
                None => Ok(None),
            }
        }
        Stmt::Simple(tree) => match typed_simple(alloc, scope, faults, tree)? {
            Some(simple) => Ok(Some(Statement::Simple(simple))),
            None => Ok(None),
        },
        Stmt::Return(at, tree) => typed_return(alloc, scope, faults, result_type, *at, tree),
        Stmt::Break(at) => Ok(leave(faults, in_loop, *at, Statement::Break)),
        Stmt::Continue(at) => Ok(leave(faults, in_loop, *at, Statement::Continue)),
        Stmt::If(arms, last) => {
            let arms = typed_arms(alloc, scope, faults, result_type, in_loop, arms.as_slice())?;
            let Some(last) = last else {
                return Ok(if_of(arms, Some(None)));
            };
            let last = typed_body(alloc, scope, faults, result_type, in_loop, last.as_slice())?;
            Ok(if_of(arms, last.map(Some)))
        }
        Stmt::While(_, test, body) => {
            let test = typed_test(alloc, scope, faults, test)?;
            let body = typed_body(alloc, scope, faults, result_type, true, body.as_slice())?;
            Ok(while_of(test, body))
        }
        Stmt::Do(_, body, test) => {
            let body = typed_body(alloc, scope, faults, result_type, true, body.as_slice())?;
            let test = typed_test(alloc, scope, faults, test)?;
            Ok(do_of(body, test))
        }
        Stmt::For(_, first, test, step, body) => {
            let first = maybe_simple(alloc, scope, faults, first)?;
            let test = maybe_test(alloc, scope, faults, test)?;
            let step = maybe_simple(alloc, scope, faults, step)?;
            let body = typed_body(alloc, scope, faults, result_type, true, body.as_slice())?;
            Ok(for_of(first, test, step, body))
        }
    }
}
