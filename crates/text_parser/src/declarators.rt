// Declarators, fields and members.
ghost use Rattle.std.specs.Prelude.{◌≡◌, ◌≤◌, [], ◌∷◌, length, IfOk};
ghost use Rattle.text_grammar.specs.laws.Programs.{runs, declarator};
ghost use Rattle.text_grammar.specs.laws.Programs as spec;
ghost use Rattle.text_parser.specs.Descent.{Gives};

use crate::cursor::Cursor;
use crate::lexeme::Lexeme;
use crate::stop::Stop;
use crate::types::{read_base, read_stars};
use sqlite_items::Items;
use std::alloc::{AllocError, Global};
use text_grammar::{Declarator, Kind, Members, Number};

/// A declarator of this name.
pub fn declarator(
    alloc: Global,
    stars: usize,
    name: &Lexeme<'_>,
    is_open: bool,
    lengths: Items<Number>,
) -> Result<Declarator, AllocError>
    ensures { IfOk result (λ d. d ≡ declarator stars name.now is_open lengths) }
{
    Ok(Declarator {
        stars,
        name: name.name(alloc)?,
        is_open,
        lengths,
    })
}

/// Array lengths behind those that were found before.
#[tactic(auto, using(text_grammar::specs::laws::ProgramWalks::runs_walk))]
pub fn read_lengths(tokens: &mut Cursor<'_>, before: Items<Number>) -> Result<Items<Number>, Stop>
    ensures reads { Gives (runs (spec.LengthsOf before) tokens.old) result tokens.new }
    ensures shorter { length tokens.new ≤ length tokens.old }
{
    let mut found = before;
    'lengths: while let Some(_) = tokens.next_if(Kind::LBracket) {
        let number = tokens.expect(Kind::Num)?;
        let _ = tokens.expect(Kind::RBracket)?;
        found.push(number.number())?;
    }
    Ok(found)
}

/// A name with stars before it and array lengths behind it.
#[tactic(auto, using(text_grammar::specs::laws::ProgramWalks::runs_walk))]
pub fn read_field(alloc: Global, tokens: &mut Cursor<'_>) -> Result<Declarator, Stop>
    ensures reads { Gives (runs spec.FieldOf tokens.old) result tokens.new }
    ensures shorter { length tokens.new ≤ length tokens.old }
{
    let stars = read_stars(tokens)?;
    let name = tokens.expect(Kind::Id)?;
    let lengths = read_lengths(tokens, Items::new(alloc))?;
    Ok(declarator(alloc, stars, &name, false, lengths)?)
}

// The fields behind the first.
#[tactic(auto, using(text_grammar::specs::laws::ProgramWalks::runs_walk))]
fn read_fields(
    alloc: Global,
    tokens: &mut Cursor<'_>,
    first: Declarator,
) -> Result<Items<Declarator>, Stop>
    ensures reads { Gives (runs (spec.FieldsOf (first ∷ [])) tokens.old) result tokens.new }
    ensures shorter { length tokens.new ≤ length tokens.old }
{
    let mut found = Items::new(alloc);
    found.push(first)?;
    'commas: while let Some(_) = tokens.next_if(Kind::Comma) {
        let next = read_field(alloc, tokens)?;
        found.push(next)?;
    }
    Ok(found)
}

/// Members that one declaration names.
#[tactic(auto, using(text_grammar::specs::laws::ProgramWalks::runs_walk))]
pub fn read_member(alloc: Global, tokens: &mut Cursor<'_>) -> Result<Members, Stop>
    ensures reads { Gives (runs spec.MemberOf tokens.old) result tokens.new }
    ensures shorter { length tokens.new ≤ length tokens.old }
{
    let base = read_base(alloc, tokens)?;
    let first = read_field(alloc, tokens)?;
    let fields = read_fields(alloc, tokens, first)?;
    let _ = tokens.expect(Kind::Semi)?;
    Ok(Members { base, fields })
}

/// The members behind the first, up to and with the closing brace.
#[tactic(auto, using(text_grammar::specs::laws::ProgramWalks::runs_walk))]
pub fn read_members(
    alloc: Global,
    tokens: &mut Cursor<'_>,
    first: Members,
) -> Result<Items<Members>, Stop>
    ensures reads { Gives (runs (spec.MembersOf (first ∷ [])) tokens.old) result tokens.new }
    ensures shorter { length tokens.new ≤ length tokens.old }
{
    let mut found = Items::new(alloc);
    found.push(first)?;
    'members: loop {
        if let Some(_) = tokens.next_if(Kind::RBrace) {
            return Ok(found);
        }
        let next = read_member(alloc, tokens)?;
        found.push(next)?;
    }
}
