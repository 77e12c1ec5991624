// Locals of functions.
ghost use Rattle.std.specs.Prelude.{◌≡◌, ◌≤◌, ◌<◌, [], ◌∷◌, length, IfOk};
ghost use Rattle.text_grammar.specs.laws.Programs.{runs};
ghost use Rattle.text_grammar.specs.laws.Programs as spec;
ghost use Rattle.text_parser.specs.Descent.{Gives};
ghost use Rattle.text_parser.specs.LocalLists.{GivesLocals};

use crate::cursor::Cursor;
use crate::declarators::read_field;
use crate::expressions::read_chain;
use crate::stop::Stop;
use crate::types::{begins_type, read_base};
use sqlite_items::Items;
use std::alloc::Global;
use text_grammar::{Kind, Level, LocalItem, LocalValue, Locals};

#[tactic(auto, using(text_grammar::specs::laws::ProgramWalks::runs_walk))]
fn read_local(alloc: Global, tokens: &mut Cursor<'_>) -> Result<LocalItem, Stop>
    ensures reads { Gives (runs spec.LocalOf tokens.old) result tokens.new }
    ensures shorter { length tokens.new ≤ length tokens.old }
{
    let declarator = read_field(alloc, tokens)?;
    let Some(x) = tokens.next_if(Kind::Assign) else {
        return Ok(LocalItem {
            declarator,
            value: None,
        });
    };
    let value = read_chain(alloc, tokens, Level::Or)?;
    Ok(LocalItem {
        declarator,
        value: Some(LocalValue { at: x.at(), value }),
    })
}

// The locals of one declaration behind the first.
#[tactic(auto, using(text_grammar::specs::laws::ProgramWalks::runs_walk))]
fn read_local_items(
    alloc: Global,
    tokens: &mut Cursor<'_>,
    first: LocalItem,
) -> Result<Items<LocalItem>, Stop>
    ensures reads { Gives (runs (spec.LocalItemsOf (first ∷ [])) tokens.old) result tokens.new }
    ensures shorter { length tokens.new ≤ length tokens.old }
{
    let mut found = Items::new(alloc);
    found.push(first)?;
    'commas: while let Some(_) = tokens.next_if(Kind::Comma) {
        let next = read_local(alloc, tokens)?;
        found.push(next)?;
    }
    Ok(found)
}

// Locals that one declaration names, behind `register` where there is one.
fn read_locals(alloc: Global, tokens: &mut Cursor<'_>, is_register: bool) -> Result<Locals, Stop>
    ensures reads { GivesLocals is_register tokens.old result tokens.new }
    ensures shorter { length tokens.new ≤ length tokens.old }
    ensures less { IfOk result (λ _. length tokens.new < length tokens.old) }
{
    let base = read_base(alloc, tokens)?;
    let first = read_local(alloc, tokens)?;
    let items = read_local_items(alloc, tokens, first)?;
    let _ = tokens.expect(Kind::Semi)?;
    Ok(Locals {
        is_register,
        base,
        items,
    })
}

/// The declarations of locals that come next.
#[tactic(auto, using(text_grammar::specs::laws::ProgramWalks::runs_walk))]
pub fn read_local_lists(alloc: Global, tokens: &mut Cursor<'_>) -> Result<Items<Locals>, Stop>
    ensures reads { Gives (runs (spec.LocalListsOf []) tokens.old) result tokens.new }
    ensures shorter { length tokens.new ≤ length tokens.old }
{
    let mut found = Items::new(alloc);
    'lists: loop {
        if let Some(_) = tokens.next_if(Kind::KwRegister) {
            let next = read_locals(alloc, tokens, true)?;
            found.push(next)?;
            continue;
        }
        if !begins_type(tokens) {
            return Ok(found);
        }
        let next = read_locals(alloc, tokens, false)?;
        found.push(next)?;
    }
}
