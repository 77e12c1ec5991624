// A recursive descent over expressions, one token ahead.
ghost use Rattle.std.specs.Prelude.{◌≡◌, ◌≤◌, length};
ghost use Rattle.text_grammar.specs.declared.kind.Kind.TheVariants as k;
ghost use Rattle.text_grammar.specs.laws.Programs.{runs, walk};
ghost use Rattle.text_grammar.specs.laws.Programs as spec;
ghost use Rattle.text_parser.specs.Descent.{Gives};

use crate::cursor::Cursor;
use crate::lexeme::Lexeme;
use crate::nodes;
use crate::operators::{operator_of, prefix_of};
use crate::stop::Stop;
use crate::types::{begins_type, read_type};
use std::alloc::Global;
use text_grammar::{Expr, Kind, Level};

#[tactic(auto, using(text_grammar::specs::laws::ProgramWalks::runs_walk))]
fn read_primary(alloc: Global, tokens: &mut Cursor<'_>) -> Result<Expr, Stop>
    ensures reads { Gives (runs spec.PrimaryOf tokens.old) result tokens.new }
    ensures shorter { length tokens.new ≤ length tokens.old }
{
    if let Some(x) = tokens.next_if(Kind::Id) {
        return Ok(nodes::name(alloc, &x)?);
    }
    if let Some(x) = tokens.next_if(Kind::Num) {
        return Ok(nodes::number(&x));
    }
    if let Some(x) = tokens.next_if(Kind::Char) {
        return Ok(nodes::character(&x));
    }
    Err(Stop::Token)
}

/// Indices and members behind an expression.
#[tactic(auto, using(text_grammar::specs::laws::ProgramWalks::runs_walk))]
#[cycle(expression)]
pub fn read_after(alloc: Global, tokens: &mut Cursor<'_>, first: Expr) -> Result<Expr, Stop>
    ensures reads { Gives (runs (spec.After first) tokens.old) result tokens.new }
    ensures shorter { length tokens.new ≤ length tokens.old }
{
    let mut whole = first;
    'parts: loop {
        if let Some(x) = tokens.next_if(Kind::LBracket) {
            let at = read_chain(alloc, tokens, Level::Or)?;
            let _ = tokens.expect(Kind::RBracket)?;
            whole = nodes::index(alloc, &x, whole, at)?;
            continue;
        }
        if let Some(_) = tokens.next_if(Kind::Dot) {
            let y = tokens.expect(Kind::Id)?;
            whole = nodes::member(alloc, &y, whole)?;
            continue;
        }
        if let Some(_) = tokens.next_if(Kind::Arrow) {
            let y = tokens.expect(Kind::Id)?;
            whole = nodes::arrow(alloc, &y, whole)?;
            continue;
        }
        return Ok(whole);
    }
}

// An expression behind its parenthesis `x`, and what stands behind it.
#[tactic(auto, using(text_grammar::specs::laws::ProgramWalks::runs_walk))]
#[cycle(expression)]
fn read_inner(alloc: Global, tokens: &mut Cursor<'_>, x: &Lexeme<'_>) -> Result<Expr, Stop>
    ensures reads { Gives (runs (spec.Inner x.now) tokens.old) result tokens.new }
    ensures shorter { length tokens.new ≤ length tokens.old }
{
    let _at = x.at();
    let inner = read_chain(alloc, tokens, Level::Or)?;
    let _ = tokens.expect(Kind::RParen)?;
    read_after(alloc, tokens, inner)
}

// A cast or an expression behind its parenthesis `x`.
#[tactic(auto, using(text_grammar::specs::laws::ProgramWalks::runs_walk))]
#[cycle(expression)]
fn read_open(alloc: Global, tokens: &mut Cursor<'_>, x: &Lexeme<'_>) -> Result<Expr, Stop>
    ensures reads { Gives (runs (spec.Open x.now) tokens.old) result tokens.new }
    ensures shorter { length tokens.new ≤ length tokens.old }
{
    if !begins_type(tokens) {
        return read_inner(alloc, tokens, x);
    }
    let to = read_type(alloc, tokens)?;
    let _ = tokens.expect(Kind::RParen)?;
    let operand = read_unary(alloc, tokens)?;
    Ok(nodes::cast(alloc, x, to, operand)?)
}

// Behind `sizeof`.
#[tactic(auto, using(text_grammar::specs::laws::ProgramWalks::runs_walk))]
#[cycle(expression)]
fn read_sizeof(alloc: Global, tokens: &mut Cursor<'_>, x: &Lexeme<'_>) -> Result<Expr, Stop>
    ensures reads { Gives (runs (spec.SizeofOf x.now) tokens.old) result tokens.new }
    ensures shorter { length tokens.new ≤ length tokens.old }
{
    if let Some(y) = tokens.next_if(Kind::LParen) {
        return read_sizeof_open(alloc, tokens, x, &y);
    }
    let operand = read_plain(alloc, tokens)?;
    Ok(nodes::sizeof(alloc, x, operand)?)
}

// Behind `sizeof` and a parenthesis `y`.
#[tactic(auto, using(text_grammar::specs::laws::ProgramWalks::runs_walk))]
#[cycle(expression)]
fn read_sizeof_open(
    alloc: Global,
    tokens: &mut Cursor<'_>,
    x: &Lexeme<'_>,
    y: &Lexeme<'_>,
) -> Result<Expr, Stop>
    ensures reads { Gives (runs (spec.SizeofOpen x.now y.now) tokens.old) result tokens.new }
    ensures shorter { length tokens.new ≤ length tokens.old }
{
    if !begins_type(tokens) {
        let operand = read_inner(alloc, tokens, y)?;
        return Ok(nodes::sizeof(alloc, x, operand)?);
    }
    let of = read_type(alloc, tokens)?;
    let _ = tokens.expect(Kind::RParen)?;
    Ok(Expr::SizeofType(x.at(), of))
}

// What begins with no parenthesis and is no cast.
#[tactic(auto, using(text_grammar::specs::laws::ProgramWalks::runs_walk))]
#[cycle(expression)]
fn read_plain(alloc: Global, tokens: &mut Cursor<'_>) -> Result<Expr, Stop>
    ensures reads { Gives (runs spec.Plain tokens.old) result tokens.new }
    ensures shorter { length tokens.new ≤ length tokens.old }
{
    if let Some(x) = tokens.next_if(Kind::KwSizeof) {
        return read_sizeof(alloc, tokens, &x);
    }
    let Some(x) = tokens.peek() else {
        return read_postfix(alloc, tokens);
    };
    let Some(op) = prefix_of(x.kind()) else {
        return read_postfix(alloc, tokens);
    };
    tokens.skip();
    let operand = read_unary(alloc, tokens)?;
    Ok(nodes::unary(alloc, &x, op, operand)?)
}

#[tactic(auto, using(text_grammar::specs::laws::ProgramWalks::runs_walk))]
#[cycle(expression)]
fn read_postfix(alloc: Global, tokens: &mut Cursor<'_>) -> Result<Expr, Stop>
    ensures reads { Gives (runs spec.PostfixOf tokens.old) result tokens.new }
    ensures shorter { length tokens.new ≤ length tokens.old }
{
    let first = read_primary(alloc, tokens)?;
    read_after(alloc, tokens, first)
}

/// An operand of the binary operators.
#[tactic(auto, using(text_grammar::specs::laws::ProgramWalks::runs_walk))]
#[cycle(expression)]
pub fn read_unary(alloc: Global, tokens: &mut Cursor<'_>) -> Result<Expr, Stop>
    ensures reads { Gives (runs spec.UnaryOf tokens.old) result tokens.new }
    ensures shorter { length tokens.new ≤ length tokens.old }
{
    if let Some(x) = tokens.next_if(Kind::LParen) {
        return read_open(alloc, tokens, &x);
    }
    read_plain(alloc, tokens)
}

// An operand of the operators of a level.
#[tactic(auto, using(text_grammar::specs::laws::ProgramWalks::runs_walk))]
#[cycle(expression)]
fn read_operand(alloc: Global, tokens: &mut Cursor<'_>, level: Level) -> Result<Expr, Stop>
    ensures reads { Gives (runs (spec.OperandOf level) tokens.old) result tokens.new }
    ensures shorter { length tokens.new ≤ length tokens.old }
{
    match level {
        Level::Or => read_chain(alloc, tokens, Level::And),
        Level::And => read_chain(alloc, tokens, Level::BitOr),
        Level::BitOr => read_chain(alloc, tokens, Level::BitXor),
        Level::BitXor => read_chain(alloc, tokens, Level::BitAnd),
        Level::BitAnd => read_chain(alloc, tokens, Level::Equality),
        Level::Equality => read_chain(alloc, tokens, Level::Order),
        Level::Order => read_chain(alloc, tokens, Level::Shift),
        Level::Shift => read_chain(alloc, tokens, Level::Sum),
        Level::Sum => read_chain(alloc, tokens, Level::Product),
        Level::Product => read_unary(alloc, tokens),
    }
}

/// Operands with operators of a level between them. At the loosest level this is an expression.
#[tactic(auto, using(text_grammar::specs::laws::ProgramWalks::runs_walk))]
#[cycle(expression)]
pub fn read_chain(alloc: Global, tokens: &mut Cursor<'_>, level: Level) -> Result<Expr, Stop>
    ensures reads { Gives (runs (spec.ChainOf level) tokens.old) result tokens.new }
    ensures shorter { length tokens.new ≤ length tokens.old }
{
    let first = read_operand(alloc, tokens, level)?;
    read_further(alloc, tokens, level, first)
}

/// The operators of a level behind an operand, with their operands.
#[tactic(auto, using(text_grammar::specs::laws::ProgramWalks::runs_walk))]
#[cycle(expression)]
pub fn read_further(
    alloc: Global,
    tokens: &mut Cursor<'_>,
    level: Level,
    first: Expr,
) -> Result<Expr, Stop>
    ensures reads { Gives (runs (spec.Further level first) tokens.old) result tokens.new }
    ensures shorter { length tokens.new ≤ length tokens.old }
{
    let mut whole = first;
    'operators: while let Some(x) = tokens.peek()
        && let Some(op) = operator_of(level, x.kind())
    {
        tokens.skip();
        let operand = read_operand(alloc, tokens, level)?;
        whole = nodes::binary(alloc, &x, op, whole, operand)?;
    }
    Ok(whole)
}
