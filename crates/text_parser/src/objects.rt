// Objects at file scope, and what they begin with.
ghost use Rattle.std.specs.Prelude.{◌≡◌, ◌≤◌, [], ◌∷◌, length};
ghost use Rattle.text_grammar.specs.laws.Programs.{runs, walk};
ghost use Rattle.text_grammar.specs.laws.Programs as spec;
ghost use Rattle.text_parser.specs.Descent.{Gives};

use crate::cursor::Cursor;
use crate::declarators::{declarator, read_lengths};
use crate::expressions::read_chain;
use crate::lexeme::Lexeme;
use crate::stop::Stop;
use crate::types::read_stars;
use sqlite_items::Items;
use std::alloc::Global;
use text_grammar::{Declarator, Initialised, Initialiser, Kind, Level, ObjectItem};

/// What an object begins with.
#[tactic(auto, using(text_grammar::specs::laws::ProgramWalks::runs_walk))]
#[cycle(initialiser)]
fn read_initialiser(alloc: Global, tokens: &mut Cursor<'_>) -> Result<Initialiser, Stop>
    ensures reads { Gives (runs spec.InitialiserOf tokens.old) result tokens.new }
    ensures shorter { length tokens.new ≤ length tokens.old }
{
    if let Some(x) = tokens.next_if(Kind::Str) {
        return Ok(Initialiser::String(x.at(), x.string(alloc)?));
    }
    if let Some(x) = tokens.next_if(Kind::LBrace) {
        let first = read_initialiser(alloc, tokens)?;
        let items = read_items(alloc, tokens, first)?;
        return Ok(Initialiser::List(x.at(), items));
    }
    let value = read_chain(alloc, tokens, Level::Or)?;
    Ok(Initialiser::Expr(value))
}

// The items of a list behind the first, up to and with the closing brace.
#[tactic(auto, using(text_grammar::specs::laws::ProgramWalks::runs_walk))]
#[cycle(initialiser)]
fn read_items(
    alloc: Global,
    tokens: &mut Cursor<'_>,
    first: Initialiser,
) -> Result<Items<Initialiser>, Stop>
    ensures reads { Gives (runs (spec.ItemsOf (first ∷ [])) tokens.old) result tokens.new }
    ensures shorter { length tokens.new ≤ length tokens.old }
{
    let mut found = Items::new(alloc);
    found.push(first)?;
    'items: while let Some(_) = tokens.next_if(Kind::Comma) {
        if let Some(_) = tokens.next_if(Kind::RBrace) {
            return Ok(found);
        }
        let next = read_initialiser(alloc, tokens)?;
        found.push(next)?;
    }
    let _ = tokens.expect(Kind::RBrace)?;
    Ok(found)
}

// What an object begins with, if anything, behind its declarator.
fn read_initialised(
    alloc: Global,
    tokens: &mut Cursor<'_>,
    declarator: Declarator,
) -> Result<ObjectItem, Stop>
    ensures reads { Gives (walk runs (spec.object_init declarator) tokens.old) result tokens.new }
    ensures shorter { length tokens.new ≤ length tokens.old }
{
    let Some(x) = tokens.next_if(Kind::Assign) else {
        return Ok(ObjectItem {
            declarator,
            initialised: None,
        });
    };
    let value = read_initialiser(alloc, tokens)?;
    Ok(ObjectItem {
        declarator,
        initialised: Some(Initialised { at: x.at(), value }),
    })
}

// An object behind its name and a bracket.
fn read_first_length(
    alloc: Global,
    tokens: &mut Cursor<'_>,
    stars: usize,
    name: &Lexeme<'_>,
    y: &Lexeme<'_>,
) -> Result<ObjectItem, Stop>
    ensures reads { Gives (walk runs (spec.object_bracket stars name.now y.now) tokens.old) result tokens.new }
    ensures shorter { length tokens.new ≤ length tokens.old }
{
    let mut first = Items::new(alloc);
    if let Some(_) = tokens.next_if(Kind::RBracket) {
        let lengths = read_lengths(tokens, first)?;
        let made = declarator(alloc, stars, name, true, lengths)?;
        return read_initialised(alloc, tokens, made);
    }
    let number = tokens.expect(Kind::Num)?;
    let _ = tokens.expect(Kind::RBracket)?;
    first.push(number.number())?;
    let lengths = read_lengths(tokens, first)?;
    let made = declarator(alloc, stars, name, false, lengths)?;
    read_initialised(alloc, tokens, made)
}

/// An object behind its stars and its name.
#[tactic(auto, using(text_grammar::specs::laws::ProgramWalks::runs_walk))]
pub fn read_object_tail(
    alloc: Global,
    tokens: &mut Cursor<'_>,
    stars: usize,
    name: &Lexeme<'_>,
) -> Result<ObjectItem, Stop>
    ensures reads { Gives (runs (spec.ObjectTail stars name.now) tokens.old) result tokens.new }
    ensures shorter { length tokens.new ≤ length tokens.old }
{
    if let Some(y) = tokens.next_if(Kind::LBracket) {
        return read_first_length(alloc, tokens, stars, name, &y);
    }
    let made = declarator(alloc, stars, name, false, Items::new(alloc))?;
    read_initialised(alloc, tokens, made)
}

#[tactic(auto, using(text_grammar::specs::laws::ProgramWalks::runs_walk))]
fn read_object(alloc: Global, tokens: &mut Cursor<'_>) -> Result<ObjectItem, Stop>
    ensures reads { Gives (runs spec.ObjectOf tokens.old) result tokens.new }
    ensures shorter { length tokens.new ≤ length tokens.old }
{
    let stars = read_stars(tokens)?;
    let name = tokens.expect(Kind::Id)?;
    read_object_tail(alloc, tokens, stars, &name)
}

/// The objects behind the first.
#[tactic(auto, using(text_grammar::specs::laws::ProgramWalks::runs_walk))]
pub fn read_objects(
    alloc: Global,
    tokens: &mut Cursor<'_>,
    first: ObjectItem,
) -> Result<Items<ObjectItem>, Stop>
    ensures reads { Gives (runs (spec.ObjectsOf (first ∷ [])) tokens.old) result tokens.new }
    ensures shorter { length tokens.new ≤ length tokens.old }
{
    let mut found = Items::new(alloc);
    found.push(first)?;
    'commas: while let Some(_) = tokens.next_if(Kind::Comma) {
        let next = read_object(alloc, tokens)?;
        found.push(next)?;
    }
    Ok(found)
}
