// A bound of what the object of a unit holds.
ghost use Rattle.std.specs.Prelude.{◌≡◌, ◌+◌, min, nat_le};
ghost use Rattle.std.specs.List.{sum_by};
ghost use Rattle.second_code.specs.Weights.{statement_weight, body_weight, item_weight, unit_weight, most_weight};

use second_form::{Item, SmallStmt, SmallStmts};

/// The most that a unit weighs. No text weighs more, since it has at most so many bytes.
const MOST: usize = 1_048_576;

// Two weights together; past the most they are that plus 1.
fn together(left: usize, right: usize) -> usize
    ensures { result ≡ min (left + right) 1048577 }
{
    left.saturating_add(right).min(MOST + 1)
}

fn statement_weight(statement: &SmallStmt) -> usize
    ensures { result ≡ min (statement_weight statement.now) 1048577 }
{
    match statement {
        SmallStmt::Put(_) => 8,
        SmallStmt::Call(name) => together(name.len(), 1),
        SmallStmt::Return(_) => 1,
    }
}

fn statements_weight(statements: &[SmallStmt]) -> usize
    ensures { result ≡ min (sum_by statement_weight statements.now) 1048577 }
{
    let mut weight = 0;
    'statements: for statement in statements {
        weight = together(weight, statement_weight(statement));
    }
    weight
}

fn body_weight(body: &Option<SmallStmts>) -> usize
    ensures { result ≡ min (body_weight body.now) 1048577 }
{
    match body {
        Some(statements) => statements_weight(statements.as_slice()),
        None => 0,
    }
}

fn item_weight(item: &Item) -> usize
    ensures { result ≡ min (item_weight item.now) 1048577 }
{
    together(together(item.name.len(), 1), body_weight(&item.body))
}

fn unit_weight(items: &[Item]) -> usize
    ensures { result ≡ min (unit_weight items.now) 1048577 }
{
    let mut weight = 0;
    'items: for item in items {
        weight = together(weight, item_weight(item));
    }
    weight
}

/// Whether a unit weighs at most as much as a text can say, so that 32 bits reach over its object.
pub fn is_light(items: &[Item]) -> bool
    ensures { result ≡ nat_le (unit_weight items.now) most_weight }
{
    unit_weight(items) <= MOST
}
