// The parts of a `for` before its block.
ghost use Rattle.std.specs.Prelude.{◌≤◌, length};
ghost use Rattle.text_parser.specs.Heads.{simple_before, test_before, LeadsBy, LeadsFor};

use crate::cursor::Cursor;
use crate::expressions::read_chain;
use crate::lexeme::Lexeme;
use crate::simples::read_simple;
use crate::stop::Stop;
use std::alloc::Global;
use text_grammar::{Expr, Kind, Level, Simple};

/// The parts of a `for`: each may be left out.
#[derive(Drop)]
pub struct ForHead {
    pub first: Option<Simple>,
    pub test: Option<Expr>,
    pub step: Option<Simple>,
}

// A simple statement or none, up to and with a token of this kind.
fn read_simple_before(
    alloc: Global,
    tokens: &mut Cursor<'_>,
    kind: Kind,
) -> Result<Option<Simple>, Stop>
    ensures leads { LeadsBy (simple_before kind) tokens.old result tokens.new }
    ensures shorter { length tokens.new ≤ length tokens.old }
{
    if let Some(_) = tokens.next_if(kind) {
        return Ok(None);
    }
    let simple = read_simple(alloc, tokens)?;
    let _ = tokens.expect(kind)?;
    Ok(Some(simple))
}

// An expression or none, up to and with `;`.
fn read_test(alloc: Global, tokens: &mut Cursor<'_>) -> Result<Option<Expr>, Stop>
    ensures leads { LeadsBy test_before tokens.old result tokens.new }
    ensures shorter { length tokens.new ≤ length tokens.old }
{
    if let Some(_) = tokens.next_if(Kind::Semi) {
        return Ok(None);
    }
    let test = read_chain(alloc, tokens, Level::Or)?;
    let _ = tokens.expect(Kind::Semi)?;
    Ok(Some(test))
}

/// What stands behind the `for` at `x`, up to its block.
pub fn read_for_head(
    alloc: Global,
    tokens: &mut Cursor<'_>,
    x: &Lexeme<'_>,
) -> Result<ForHead, Stop>
    ensures leads { LeadsFor x.now tokens.old result tokens.new }
    ensures shorter { length tokens.new ≤ length tokens.old }
{
    let _at = x.at();
    let _ = tokens.expect(Kind::LParen)?;
    let first = read_simple_before(alloc, tokens, Kind::Semi)?;
    let test = read_test(alloc, tokens)?;
    let step = read_simple_before(alloc, tokens, Kind::RParen)?;
    Ok(ForHead { first, test, step })
}
