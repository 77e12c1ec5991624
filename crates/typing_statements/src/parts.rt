// Conditions, parts that may be left out, and `return`.
ghost use Rattle.std.specs.Prelude.{◌≡◌, Some, OnOk, IfOk};
ghost use Rattle.typing_faults.specs.Faults.{told};
ghost use Rattle.typing_statements.specs.Statements.{test, test_rows, maybe_test, maybe_test_rows, maybe_simple, maybe_simple_rows, return_rows, returned, leaving, while_of, do_of, if_of, for_of, arm_of};

use crate::assignments::typed_simple;
use crate::gathering::{ask, convert};
use clight_unit::{Arm, Simple, Statement, Test};
use sqlite_items::Items;
use std::alloc::{AllocError, Global};
use text_grammar::{Expr, Simple as SimpleTree};
use typing_expressions::{text_place, typed};
use typing_faults::{Faults, TypeKind};
use typing_scopes::Scope;
use typing_types::CType;

/// A condition.
#[tactic(auto, using(typing_faults::specs::laws::Faults::told_append))]
pub fn typed_test<'t>(
    alloc: Global,
    scope: &Scope<'t>,
    faults: &mut Faults,
    tree: &Expr,
) -> Result<Option<Test>, AllocError>
    ensures rows { OnOk result (faults.new ≡ told faults.old (test_rows scope.now tree.now)) }
    ensures value { IfOk result (λ t. t ≡ test scope.now tree.now) }
{
    let node = typed(alloc, scope, faults, tree)?;
    ask(alloc, faults, text_place(tree), node)
}

/// The condition of a `for`, which may be left out.
pub fn maybe_test<'t>(
    alloc: Global,
    scope: &Scope<'t>,
    faults: &mut Faults,
    tree: &Option<Expr>,
) -> Result<Option<Option<Test>>, AllocError>
    ensures rows { OnOk result (faults.new ≡ told faults.old (maybe_test_rows scope.now tree.now)) }
    ensures value { IfOk result (λ t. t ≡ maybe_test scope.now tree.now) }
{
    let Some(tree) = tree else {
        return Ok(Some(None));
    };
    match typed_test(alloc, scope, faults, tree)? {
        Some(test) => Ok(Some(Some(test))),
        None => Ok(None),
    }
}

/// A simple statement of a `for`, which may be left out.
pub fn maybe_simple<'t>(
    alloc: Global,
    scope: &Scope<'t>,
    faults: &mut Faults,
    tree: &Option<SimpleTree>,
) -> Result<Option<Option<Simple>>, AllocError>
    ensures rows { OnOk result (faults.new ≡ told faults.old (maybe_simple_rows scope.now tree.now)) }
    ensures value { IfOk result (λ s. s ≡ maybe_simple scope.now tree.now) }
{
    let Some(tree) = tree else {
        return Ok(Some(None));
    };
    match typed_simple(alloc, scope, faults, tree)? {
        Some(simple) => Ok(Some(Some(simple))),
        None => Ok(None),
    }
}

// `return` with a value.
#[tactic(auto, using(typing_faults::specs::laws::Faults::told_append))]
fn return_value<'t>(
    alloc: Global,
    scope: &Scope<'t>,
    faults: &mut Faults,
    result_type: &CType<'_>,
    at: u32,
    tree: &Expr,
) -> Result<Option<Statement>, AllocError>
    ensures rows { OnOk result (faults.new ≡ told faults.old (return_rows scope.now result_type.now at (Some tree.now))) }
    ensures statement { IfOk result (λ s. s ≡ returned scope.now result_type.now (Some tree.now)) }
{
    let node = typed(alloc, scope, faults, tree)?;
    match convert(alloc, faults, at, result_type, node)? {
        Some(value) => Ok(Some(Statement::Return(Some(value)))),
        None => Ok(None),
    }
}

/// `return` in a function whose result has this type.
pub fn typed_return<'t>(
    alloc: Global,
    scope: &Scope<'t>,
    faults: &mut Faults,
    result_type: &CType<'_>,
    at: u32,
    tree: &Option<Expr>,
) -> Result<Option<Statement>, AllocError>
    ensures rows { OnOk result (faults.new ≡ told faults.old (return_rows scope.now result_type.now at tree.now)) }
    ensures statement { IfOk result (λ s. s ≡ returned scope.now result_type.now tree.now) }
{
    match tree {
        Some(tree) => return_value(alloc, scope, faults, result_type, at, tree),
        None if result_type.is_void() => Ok(Some(Statement::Return(None))),
        None => {
            faults.add(TypeKind::Kind, at);
            Ok(None)
        }
    }
}

/// `break` or `continue`, which stand in a loop.
pub fn leave(faults: &mut Faults, in_loop: bool, at: u32, statement: Statement) -> Option<Statement>
    ensures rows { faults.new ≡ told faults.old (leaving in_loop at statement).rows }
    ensures statement { result ≡ (leaving in_loop at statement).item }
{
    if in_loop {
        Some(statement)
    } else {
        faults.add(TypeKind::Kind, at);
        None
    }
}

pub fn while_of(test: Option<Test>, body: Option<Items<Statement>>) -> Option<Statement>
    ensures { result ≡ while_of test body }
{
    Some(Statement::While(test?, body?))
}

pub fn do_of(body: Option<Items<Statement>>, test: Option<Test>) -> Option<Statement>
    ensures { result ≡ do_of body test }
{
    let test = test?;
    Some(Statement::Do(body?, test))
}

pub fn if_of(arms: Option<Items<Arm>>, last: Option<Option<Items<Statement>>>) -> Option<Statement>
    ensures { result ≡ if_of arms last }
{
    Some(Statement::If(arms?, last?))
}

pub fn for_of(
    first: Option<Option<Simple>>,
    test: Option<Option<Test>>,
    step: Option<Option<Simple>>,
    body: Option<Items<Statement>>,
) -> Option<Statement>
    ensures { result ≡ for_of first test step body }
{
    Some(Statement::For(first?, test?, step?, body?))
}

pub fn arm_of(test: Option<Test>, body: Option<Items<Statement>>) -> Option<Arm>
    ensures { result ≡ arm_of test body }
{
    Some(Arm {
        test: test?,
        body: body?,
    })
}
