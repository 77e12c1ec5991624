// Statements. The code of each is pushed to a list of the caller's.
ghost use Rattle.std.specs.Prelude.{◌≡◌, ◌+◌, ◌++◌, ◌∷◌, [], map, IfOk, OnOk};
ghost use Rattle.core_gen.specs.Translation.{tested, tested_if_any, arms_code, coded, code_of, arm_code};

use crate::calls::{assignment, return_code, simple_code, simple_if_any};
use crate::expressions::condition_of;
use clight_unit::{Arm, Statement, Test};
use core_lang::Statement as Code;
use sqlite_items::Items;
use std::alloc::{AllocError, Global};

// A loop is left where its test does not hold.
fn tested(alloc: Global, base: u32, test: &Test, list: &mut Items<Code>) -> Result<(), AllocError>
    ensures { OnOk result (list.new ≡ list.old ++ tested base test.now) }
{
    let made = condition_of(alloc, test, base, list)?;
    let exit = alone(alloc, Code::Exit(0))?;
    list.push(Code::If(made.value, Items::new(alloc), exit))
}

// So it is where it has one.
fn tested_if_any(
    alloc: Global,
    base: u32,
    test: &Option<Test>,
    list: &mut Items<Code>,
) -> Result<(), AllocError>
    ensures { OnOk result (list.new ≡ list.old ++ tested_if_any base test.now) }
{
    match test {
        None => Ok(()),
        Some(test) => tested(alloc, base, test, list),
    }
}

fn alone(alloc: Global, code: Code) -> Result<Items<Code>, AllocError>
    ensures { IfOk result (λ l. l ≡ code ∷ []) }
{
    let mut list = Items::new(alloc);
    list.push(code)?;
    Ok(list)
}

/// The code of statements, so many blocks inside the innermost loop's body.
#[cycle(statement)]
pub fn body_code(
    alloc: Global,
    base: u32,
    statements: &[Statement],
    depth: u32,
) -> Result<Items<Code>, AllocError>
    ensures { IfOk result (λ l. l ≡ coded (map (code_of base) statements.now) depth) }
{
    let mut list = Items::new(alloc);
    add_body(alloc, base, statements, depth, &mut list)?;
    Ok(list)
}

// The code of statements is pushed.
#[cycle(statement)]
fn add_body(
    alloc: Global,
    base: u32,
    statements: &[Statement],
    depth: u32,
    list: &mut Items<Code>,
) -> Result<(), AllocError>
    ensures { OnOk result (list.new ≡ list.old ++ coded (map (code_of base) statements.now) depth) }
{
    'statements: for statement in statements {
        statement_code(alloc, base, statement, depth, list)?;
    }
    Ok(())
}

// The code of the arms of an `if` is pushed; what stands behind them comes last.
#[cycle(statement)]
fn arms(
    alloc: Global,
    base: u32,
    arms: &[Arm],
    last: Items<Code>,
    depth: u32,
    inner: u32,
) -> Result<Items<Code>, AllocError>
    requires { inner ≡ depth + 1 }
    ensures { IfOk result (λ l. l ≡ arms_code base depth (map (arm_code base) arms.now) last) }
{
    let mut list = Items::new(alloc);
    'arms: for arm in arms {
        let made = condition_of(alloc, &arm.test, base, &mut list)?;
        let mut body = body_code(alloc, base, arm.body.as_slice(), inner)?;
        body.push(Code::Exit(0))?;
        list.push(Code::If(made.value, body, Items::new(alloc)))?;
    }
    list.append(last)?;
    Ok(list)
}

/// The code of a statement, so many blocks inside the innermost loop's body, is pushed.
#[cycle(statement)]
pub fn statement_code(
    alloc: Global,
    base: u32,
    statement: &Statement,
    depth: u32,
    list: &mut Items<Code>,
) -> Result<(), AllocError>
    ensures { OnOk result (list.new ≡ list.old ++ code_of base statement.now depth) }
{
    match statement {
        Statement::Empty => Ok(()),
        Statement::Initialise(new) => assignment(alloc, base, new, list),
        Statement::Block(statements) => add_body(alloc, base, statements.as_slice(), depth, list),
        Statement::While(test, statements) => {
            let body = body_code(alloc, base, statements.as_slice(), 0)?;
            let mut round = Items::new(alloc);
            tested(alloc, base, test, &mut round)?;
            round.push(Code::Block(body))?;
            list.push(Code::Block(alone(alloc, Code::Loop(round))?))
        }
        Statement::Do(statements, test) => {
            let body = body_code(alloc, base, statements.as_slice(), 0)?;
            let mut round = alone(alloc, Code::Block(body))?;
            tested(alloc, base, test, &mut round)?;
            list.push(Code::Block(alone(alloc, Code::Loop(round))?))
        }
        Statement::Break => {
            let Some(outer) = depth.checked_add(1) else {
                return Err(AllocError);
            };
            list.push(Code::Exit(outer))
        }
        Statement::Continue => list.push(Code::Exit(depth)),
        Statement::Simple(simple) => simple_code(alloc, base, simple, list),
        Statement::If(all, None) => {
            let Some(inner) = depth.checked_add(1) else {
                return Err(AllocError);
            };
            let inside = arms(alloc, base, all.as_slice(), Items::new(alloc), depth, inner)?;
            list.push(Code::Block(inside))
        }
        Statement::If(all, Some(last)) => {
            let Some(inner) = depth.checked_add(1) else {
                return Err(AllocError);
            };
            let last = body_code(alloc, base, last.as_slice(), inner)?;
            let inside = arms(alloc, base, all.as_slice(), last, depth, inner)?;
            list.push(Code::Block(inside))
        }
        Statement::For(first, test, step, statements) => {
            let body = body_code(alloc, base, statements.as_slice(), 0)?;
            let mut round = Items::new(alloc);
            tested_if_any(alloc, base, test, &mut round)?;
            round.push(Code::Block(body))?;
            simple_if_any(alloc, base, step, &mut round)?;
            let mut inside = Items::new(alloc);
            simple_if_any(alloc, base, first, &mut inside)?;
            inside.push(Code::Loop(round))?;
            list.push(Code::Block(inside))
        }
        Statement::Return(value) => return_code(alloc, base, value, list),
    }
}
