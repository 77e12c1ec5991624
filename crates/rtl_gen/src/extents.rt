// Which temporaries code takes.
ghost use Rattle.std.specs.Prelude.{◌≡◌, ◌+◌, max, IfOk};
ghost use Rattle.core_lang.specs.Bounds.{expression_size, arguments_size, result_reach, value_size, statement_size, body_size};
ghost use Rattle.rtl_gen.specs.Extents.{extent_of, both};

use crate::expressions::above;
use core_lang::{Expression, Statement};
use std::alloc::AllocError;

/// The temporaries that code takes.
#[derive(Clone, Copy)]
pub struct Extent {
    /// The first number above those that it names.
    pub reach: u32,
    /// How many more an expression takes while it is found, at most.
    pub depth: u32,
}

/// The greater of two numbers.
pub fn greater(a: u32, b: u32) -> u32
    ensures { result ≡ max a b }
{
    if a < b { b } else { a }
}

impl Extent {
    fn none() -> Extent
        ensures { result ≡ record { reach = 0; depth = 0 } }
    {
        Extent { reach: 0, depth: 0 }
    }

    // What both take.
    fn and(self, other: Extent) -> Extent
        ensures { result ≡ both self other }
    {
        Extent {
            reach: greater(self.reach, other.reach),
            depth: greater(self.depth, other.depth),
        }
    }

    // With one temporary more on the way.
    fn behind_one(self) -> Result<Extent, AllocError>
        ensures { IfOk result (λ e. e ≡ record { reach = self.reach; depth = 1 + self.depth }) }
    {
        Ok(Extent {
            reach: self.reach,
            depth: above(self.depth)?,
        })
    }

    // With this temporary.
    fn naming(self, temporary: u32) -> Result<Extent, AllocError>
        ensures { IfOk result (λ e. e ≡ record { reach = max (temporary + 1) self.reach; depth = self.depth }) }
    {
        Ok(Extent {
            reach: greater(above(temporary)?, self.reach),
            depth: self.depth,
        })
    }
}

fn expression_extent(e: &Expression) -> Result<Extent, AllocError>
    ensures { IfOk result (λ x. x ≡ extent_of (expression_size e.now)) }
{
    match e {
        Expression::Constant(_) | Expression::Address(_, _) | Expression::Local(_) => Ok(Extent {
            reach: 0,
            depth: 1,
        }),
        Expression::Temporary(number) => Ok(Extent {
            reach: above(*number)?,
            depth: 1,
        }),
        Expression::Load(_, place) => expression_extent(place.get()),
        Expression::Unary(_, value) => {
            let value = expression_extent(value.get())?;
            Ok(Extent {
                reach: value.reach,
                depth: greater(value.depth, 2),
            })
        }
        Expression::Binary(_, left, right) => {
            let left = expression_extent(left.get())?;
            let right = expression_extent(right.get())?;
            Ok(left.and(right.behind_one()?))
        }
    }
}

// The last argument first.
fn arguments_extent(arguments: &[Expression]) -> Result<Extent, AllocError>
    ensures { IfOk result (λ x. x ≡ extent_of (arguments_size arguments.now)) }
{
    let mut extent = Extent::none();
    'arguments: for left in (0..arguments.len()).rev() {
        let first = expression_extent(&arguments[left])?;
        extent = first.and(extent.behind_one()?);
    }
    Ok(extent)
}

fn value_extent(value: &Option<Expression>) -> Result<Extent, AllocError>
    ensures { IfOk result (λ x. x ≡ extent_of (value_size value.now)) }
{
    match value {
        None => Ok(Extent::none()),
        Some(e) => expression_extent(e),
    }
}

fn call_extent(to: Option<u32>, arguments: &[Expression]) -> Result<Extent, AllocError>
    ensures { IfOk result (λ x. x ≡ record { reach = max (result_reach to) (arguments_size arguments.now).reach; depth = (arguments_size arguments.now).depth }) }
{
    let extent = arguments_extent(arguments)?;
    match to {
        None => Ok(extent),
        Some(number) => extent.naming(number),
    }
}

/// What the statements of a list take.
#[cycle(extent)]
#[tactic(auto, using(crate::proofs::Joining::both_behind, crate::proofs::Joining::both_none, crate::proofs::Joining::none_both))]
pub fn body_extent(statements: &[Statement]) -> Result<Extent, AllocError>
    ensures { IfOk result (λ x. x ≡ extent_of (body_size statements.now)) }
{
    let mut extent = Extent::none();
    'statements: for statement in statements {
        extent = extent.and(statement_extent(statement)?);
    }
    Ok(extent)
}

#[cycle(extent)]
fn statement_extent(s: &Statement) -> Result<Extent, AllocError>
    ensures { IfOk result (λ x. x ≡ extent_of (statement_size s.now)) }
{
    match s {
        Statement::Set(number, e) => expression_extent(e)?.naming(*number),
        Statement::Store(_, place, value) => {
            let place = expression_extent(place)?;
            let value = expression_extent(value)?;
            Ok(place.and(value.behind_one()?))
        }
        Statement::Call(to, _, arguments) => call_extent(*to, arguments.as_slice()),
        Statement::If(test, yes, no) => {
            let test = expression_extent(test)?;
            let yes = body_extent(yes.as_slice())?;
            let no = body_extent(no.as_slice())?;
            Ok(test.and(yes.and(no)))
        }
        Statement::Loop(body) | Statement::Block(body) => body_extent(body.as_slice()),
        Statement::Exit(_) => Ok(Extent::none()),
        Statement::Return(value) => value_extent(value),
    }
}
