// Statements and blocks.
ghost use Rattle.std.specs.Prelude.{◌≡◌, ◌≤◌, [], ◌∷◌, length};
ghost use Rattle.text_grammar.specs.laws.Programs.{runs, walk};
ghost use Rattle.text_grammar.specs.laws.Programs as spec;
ghost use Rattle.text_parser.specs.Descent.{Gives};

use crate::cursor::Cursor;
use crate::expressions::read_chain;
use crate::heads::read_for_head;
use crate::lexeme::Lexeme;
use crate::simples::read_simple;
use crate::stop::Stop;
use sqlite_items::Items;
use std::alloc::Global;
use text_grammar::{Arm, Expr, Kind, Level, Stmt};

// Behind `return`.
fn read_return(alloc: Global, tokens: &mut Cursor<'_>, x: &Lexeme<'_>) -> Result<Stmt, Stop>
    ensures reads { Gives (walk runs (spec.return_rest x.now) tokens.old) result tokens.new }
    ensures shorter { length tokens.new ≤ length tokens.old }
{
    if let Some(_) = tokens.next_if(Kind::Semi) {
        return Ok(Stmt::Return(x.at(), None));
    }
    let value = read_chain(alloc, tokens, Level::Or)?;
    let _ = tokens.expect(Kind::Semi)?;
    Ok(Stmt::Return(x.at(), Some(value)))
}

// Behind `break`.
fn read_break(tokens: &mut Cursor<'_>, x: &Lexeme<'_>) -> Result<Stmt, Stop>
    ensures reads { Gives (walk runs (spec.break_rest x.now) tokens.old) result tokens.new }
    ensures shorter { length tokens.new ≤ length tokens.old }
{
    let _ = tokens.expect(Kind::Semi)?;
    Ok(Stmt::Break(x.at()))
}

// Behind `continue`.
fn read_continue(tokens: &mut Cursor<'_>, x: &Lexeme<'_>) -> Result<Stmt, Stop>
    ensures reads { Gives (walk runs (spec.continue_rest x.now) tokens.old) result tokens.new }
    ensures shorter { length tokens.new ≤ length tokens.old }
{
    let _ = tokens.expect(Kind::Semi)?;
    Ok(Stmt::Continue(x.at()))
}

// A call or an assignment, and its `;`.
fn read_simple_statement(alloc: Global, tokens: &mut Cursor<'_>) -> Result<Stmt, Stop>
    ensures reads { Gives (walk runs spec.stmt_simple tokens.old) result tokens.new }
    ensures shorter { length tokens.new ≤ length tokens.old }
{
    let simple = read_simple(alloc, tokens)?;
    let _ = tokens.expect(Kind::Semi)?;
    Ok(Stmt::Simple(simple))
}

#[tactic(auto, using(text_grammar::specs::laws::ProgramWalks::runs_walk))]
#[cycle(statement)]
fn read_statement(alloc: Global, tokens: &mut Cursor<'_>) -> Result<Stmt, Stop>
    ensures reads { Gives (runs spec.StatementOf tokens.old) result tokens.new }
    ensures shorter { length tokens.new ≤ length tokens.old }
{
    if let Some(x) = tokens.next_if(Kind::Semi) {
        return Ok(Stmt::Empty(x.at()));
    }
    if let Some(x) = tokens.next_if(Kind::LBrace) {
        let inner = read_statements(alloc, tokens)?;
        return Ok(Stmt::Block(x.at(), inner));
    }
    if let Some(x) = tokens.next_if(Kind::KwReturn) {
        return read_return(alloc, tokens, &x);
    }
    if let Some(x) = tokens.next_if(Kind::KwBreak) {
        return read_break(tokens, &x);
    }
    if let Some(x) = tokens.next_if(Kind::KwContinue) {
        return read_continue(tokens, &x);
    }
    read_branching(alloc, tokens)
}

// A choice, a loop, or a simple statement.
#[cycle(statement)]
fn read_branching(alloc: Global, tokens: &mut Cursor<'_>) -> Result<Stmt, Stop>
    ensures reads { Gives (walk runs spec.stmt_if tokens.old) result tokens.new }
    ensures shorter { length tokens.new ≤ length tokens.old }
{
    if let Some(x) = tokens.next_if(Kind::KwIf) {
        let (test, body) = read_guarded(alloc, tokens)?;
        return read_choice(
            alloc,
            tokens,
            Arm {
                at: x.at(),
                test,
                body,
            },
        );
    }
    if let Some(x) = tokens.next_if(Kind::KwWhile) {
        let (test, body) = read_guarded(alloc, tokens)?;
        return Ok(Stmt::While(x.at(), test, body));
    }
    if let Some(x) = tokens.next_if(Kind::KwDo) {
        return read_do(alloc, tokens, &x);
    }
    if let Some(x) = tokens.next_if(Kind::KwFor) {
        return read_for(alloc, tokens, &x);
    }
    read_simple_statement(alloc, tokens)
}

// Behind `do`.
#[cycle(statement)]
fn read_do(alloc: Global, tokens: &mut Cursor<'_>, x: &Lexeme<'_>) -> Result<Stmt, Stop>
    ensures reads { Gives (walk runs (spec.do_rest x.now) tokens.old) result tokens.new }
    ensures shorter { length tokens.new ≤ length tokens.old }
{
    let body = read_body(alloc, tokens)?;
    let _ = tokens.expect(Kind::KwWhile)?;
    let _ = tokens.expect(Kind::LParen)?;
    let test = read_chain(alloc, tokens, Level::Or)?;
    let _ = tokens.expect(Kind::RParen)?;
    let _ = tokens.expect(Kind::Semi)?;
    Ok(Stmt::Do(x.at(), body, test))
}

// Behind `for`.
#[cycle(statement)]
fn read_for(alloc: Global, tokens: &mut Cursor<'_>, x: &Lexeme<'_>) -> Result<Stmt, Stop>
    ensures reads { Gives (walk runs (spec.for_rest x.now) tokens.old) result tokens.new }
    ensures shorter { length tokens.new ≤ length tokens.old }
{
    let head = read_for_head(alloc, tokens, x)?;
    let body = read_body(alloc, tokens)?;
    Ok(Stmt::For(x.at(), head.first, head.test, head.step, body))
}

// `"(" expr ")" block`
#[tactic(auto, using(text_grammar::specs::laws::ProgramWalks::runs_walk))]
#[cycle(statement)]
fn read_guarded(alloc: Global, tokens: &mut Cursor<'_>) -> Result<(Expr, Items<Stmt>), Stop>
    ensures reads { Gives (runs spec.GuardedOf tokens.old) result tokens.new }
    ensures shorter { length tokens.new ≤ length tokens.old }
{
    let _ = tokens.expect(Kind::LParen)?;
    let test = read_chain(alloc, tokens, Level::Or)?;
    let _ = tokens.expect(Kind::RParen)?;
    let body = read_body(alloc, tokens)?;
    Ok((test, body))
}

// Behind the first arm of an `if`.
#[tactic(auto, using(text_grammar::specs::laws::ProgramWalks::runs_walk))]
#[cycle(statement)]
fn read_choice(alloc: Global, tokens: &mut Cursor<'_>, first: Arm) -> Result<Stmt, Stop>
    ensures reads { Gives (runs (spec.Choice (first ∷ [])) tokens.old) result tokens.new }
    ensures shorter { length tokens.new ≤ length tokens.old }
{
    let mut arms = Items::new(alloc);
    arms.push(first)?;
    'arms: while let Some(_) = tokens.next_if(Kind::KwElse) {
        let Some(y) = tokens.next_if(Kind::KwIf) else {
            let last = read_body(alloc, tokens)?;
            return Ok(Stmt::If(arms, Some(last)));
        };
        let (test, body) = read_guarded(alloc, tokens)?;
        arms.push(Arm {
            at: y.at(),
            test,
            body,
        })?;
    }
    Ok(Stmt::If(arms, None))
}

// A block.
#[tactic(auto, using(text_grammar::specs::laws::ProgramWalks::runs_walk))]
#[cycle(statement)]
fn read_body(alloc: Global, tokens: &mut Cursor<'_>) -> Result<Items<Stmt>, Stop>
    ensures reads { Gives (runs spec.BodyOf tokens.old) result tokens.new }
    ensures shorter { length tokens.new ≤ length tokens.old }
{
    let _ = tokens.expect(Kind::LBrace)?;
    read_statements(alloc, tokens)
}

/// Statements up to and with the closing brace.
#[tactic(auto, using(text_grammar::specs::laws::ProgramWalks::runs_walk))]
#[cycle(statement)]
pub fn read_statements(alloc: Global, tokens: &mut Cursor<'_>) -> Result<Items<Stmt>, Stop>
    ensures reads { Gives (runs (spec.StatementsOf []) tokens.old) result tokens.new }
    ensures shorter { length tokens.new ≤ length tokens.old }
{
    let mut found = Items::new(alloc);
    'statements: loop {
        if let Some(_) = tokens.next_if(Kind::RBrace) {
            return Ok(found);
        }
        let next = read_statement(alloc, tokens)?;
        found.push(next)?;
    }
}
