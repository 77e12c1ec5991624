// Calls and assignments.
ghost use Rattle.std.specs.Prelude.{◌≡◌, ◌≤◌, [], ◌∷◌, length};
ghost use Rattle.text_grammar.specs.laws.Programs.{runs, walk};
ghost use Rattle.text_grammar.specs.laws.Programs as spec;
ghost use Rattle.text_parser.specs.Descent.{Gives};

use crate::cursor::Cursor;
use crate::expressions::{read_after, read_chain, read_further, read_unary};
use crate::lexeme::Lexeme;
use crate::nodes;
use crate::stop::Stop;
use sqlite_items::Items;
use std::alloc::Global;
use text_grammar::{AssignedValue, Call, Expr, Kind, Level, Simple};

// The arguments behind the first.
#[tactic(auto, using(text_grammar::specs::laws::ProgramWalks::runs_walk))]
fn read_arguments(alloc: Global, tokens: &mut Cursor<'_>, first: Expr) -> Result<Items<Expr>, Stop>
    ensures reads { Gives (runs (spec.ArgumentsOf (first ∷ [])) tokens.old) result tokens.new }
    ensures shorter { length tokens.new ≤ length tokens.old }
{
    let mut found = Items::new(alloc);
    found.push(first)?;
    'commas: while let Some(_) = tokens.next_if(Kind::Comma) {
        let next = read_chain(alloc, tokens, Level::Or)?;
        found.push(next)?;
    }
    Ok(found)
}

// A call behind its name and its parenthesis.
#[tactic(auto, using(text_grammar::specs::laws::ProgramWalks::runs_walk))]
fn read_call_tail(alloc: Global, tokens: &mut Cursor<'_>, name: &Lexeme<'_>) -> Result<Call, Stop>
    ensures reads { Gives (runs (spec.CallTail name.now) tokens.old) result tokens.new }
    ensures shorter { length tokens.new ≤ length tokens.old }
{
    if let Some(_) = tokens.next_if(Kind::RParen) {
        return Ok(Call {
            name: name.name(alloc)?,
            arguments: Items::new(alloc),
        });
    }
    let first = read_chain(alloc, tokens, Level::Or)?;
    let arguments = read_arguments(alloc, tokens, first)?;
    let _ = tokens.expect(Kind::RParen)?;
    Ok(Call {
        name: name.name(alloc)?,
        arguments,
    })
}

// The rest of a chain of a level, whose first operand is a chain of the level `inner`.
#[tactic(auto, using(text_grammar::specs::laws::ProgramWalks::runs_walk))]
#[cycle(resumed)]
fn read_above(
    alloc: Global,
    tokens: &mut Cursor<'_>,
    level: Level,
    name: &Lexeme<'_>,
    inner: Level,
) -> Result<Expr, Stop>
    ensures reads { Gives (walk runs (spec.Call (spec.Resume inner name.now) (spec.resumed level)) tokens.old) result tokens.new }
    ensures shorter { length tokens.new ≤ length tokens.old }
{
    let first = read_resumed(alloc, tokens, inner, name)?;
    read_further(alloc, tokens, level, first)
}

// The rest of a chain of a level whose first token, a name, was taken before.
#[tactic(auto, using(text_grammar::specs::laws::ProgramWalks::runs_walk))]
#[cycle(resumed)]
fn read_resumed(
    alloc: Global,
    tokens: &mut Cursor<'_>,
    level: Level,
    name: &Lexeme<'_>,
) -> Result<Expr, Stop>
    ensures reads { Gives (runs (spec.Resume level name.now) tokens.old) result tokens.new }
    ensures shorter { length tokens.new ≤ length tokens.old }
{
    match level {
        Level::Or => read_above(alloc, tokens, Level::Or, name, Level::And),
        Level::And => read_above(alloc, tokens, Level::And, name, Level::BitOr),
        Level::BitOr => read_above(alloc, tokens, Level::BitOr, name, Level::BitXor),
        Level::BitXor => read_above(alloc, tokens, Level::BitXor, name, Level::BitAnd),
        Level::BitAnd => read_above(alloc, tokens, Level::BitAnd, name, Level::Equality),
        Level::Equality => read_above(alloc, tokens, Level::Equality, name, Level::Order),
        Level::Order => read_above(alloc, tokens, Level::Order, name, Level::Shift),
        Level::Shift => read_above(alloc, tokens, Level::Shift, name, Level::Sum),
        Level::Sum => read_above(alloc, tokens, Level::Sum, name, Level::Product),
        Level::Product => {
            let whole = nodes::name(alloc, name)?;
            let first = read_after(alloc, tokens, whole)?;
            read_further(alloc, tokens, Level::Product, first)
        }
    }
}

// What stands behind `=`.
#[tactic(auto, using(text_grammar::specs::laws::ProgramWalks::runs_walk))]
fn read_value(alloc: Global, tokens: &mut Cursor<'_>) -> Result<AssignedValue, Stop>
    ensures reads { Gives (runs spec.ValueOf tokens.old) result tokens.new }
    ensures shorter { length tokens.new ≤ length tokens.old }
{
    let Some(name) = tokens.next_if(Kind::Id) else {
        let value = read_chain(alloc, tokens, Level::Or)?;
        return Ok(AssignedValue::Expr(value));
    };
    if let Some(_) = tokens.next_if(Kind::LParen) {
        let call = read_call_tail(alloc, tokens, &name)?;
        return Ok(AssignedValue::Call(call));
    }
    let value = read_resumed(alloc, tokens, Level::Or, &name)?;
    Ok(AssignedValue::Expr(value))
}

// An assignment behind its target.
fn read_assigned(alloc: Global, tokens: &mut Cursor<'_>, target: Expr) -> Result<Simple, Stop>
    ensures reads { Gives (walk runs (spec.assign_rest target) tokens.old) result tokens.new }
    ensures shorter { length tokens.new ≤ length tokens.old }
{
    let x = tokens.expect(Kind::Assign)?;
    let value = read_value(alloc, tokens)?;
    Ok(Simple::Assign(x.at(), target, value))
}

/// A call or an assignment, without its `;`.
#[tactic(auto, using(text_grammar::specs::laws::ProgramWalks::runs_walk))]
pub fn read_simple(alloc: Global, tokens: &mut Cursor<'_>) -> Result<Simple, Stop>
    ensures reads { Gives (runs spec.SimpleOf tokens.old) result tokens.new }
    ensures shorter { length tokens.new ≤ length tokens.old }
{
    let Some(name) = tokens.next_if(Kind::Id) else {
        let target = read_unary(alloc, tokens)?;
        return read_assigned(alloc, tokens, target);
    };
    if let Some(_) = tokens.next_if(Kind::LParen) {
        let call = read_call_tail(alloc, tokens, &name)?;
        return Ok(Simple::Call(call));
    }
    let whole = nodes::name(alloc, &name)?;
    let target = read_after(alloc, tokens, whole)?;
    read_assigned(alloc, tokens, target)
}
