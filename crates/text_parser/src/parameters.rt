// Parameters of functions.
ghost use Rattle.std.specs.Prelude.{◌≡◌, ◌≤◌, [], ◌∷◌, length};
ghost use Rattle.text_grammar.specs.Grammar.{is_void_word, is_void_alone, proper, all_named};
ghost use Rattle.text_grammar.specs.laws.Programs.{runs};
ghost use Rattle.text_grammar.specs.laws.Programs as spec;
ghost use Rattle.text_parser.specs.Descent.{Gives};

use crate::cursor::Cursor;
use crate::stop::Stop;
use crate::types::{read_base, read_stars};
use sqlite_items::Items;
use std::alloc::Global;
use text_grammar::{Base, BaseKind, Kind, Parameter};

#[tactic(auto, using(text_grammar::specs::laws::ProgramWalks::runs_walk))]
fn read_parameter_tail(
    alloc: Global,
    tokens: &mut Cursor<'_>,
    base: Base,
) -> Result<Parameter, Stop>
    ensures reads { Gives (runs (spec.ParameterTail base) tokens.old) result tokens.new }
    ensures shorter { length tokens.new ≤ length tokens.old }
{
    let stars = read_stars(tokens)?;
    let Some(x) = tokens.next_if(Kind::Id) else {
        return Ok(Parameter {
            base,
            stars,
            name: None,
        });
    };
    Ok(Parameter {
        base,
        stars,
        name: Some(x.name(alloc)?),
    })
}

#[tactic(auto, using(text_grammar::specs::laws::ProgramWalks::runs_walk))]
fn read_parameter(alloc: Global, tokens: &mut Cursor<'_>) -> Result<Parameter, Stop>
    ensures reads { Gives (runs spec.ParameterOf tokens.old) result tokens.new }
    ensures shorter { length tokens.new ≤ length tokens.old }
{
    let base = read_base(alloc, tokens)?;
    read_parameter_tail(alloc, tokens, base)
}

// The parameters behind the first.
#[tactic(auto, using(text_grammar::specs::laws::ProgramWalks::runs_walk))]
fn read_parameters(
    alloc: Global,
    tokens: &mut Cursor<'_>,
    first: Parameter,
) -> Result<Items<Parameter>, Stop>
    ensures reads { Gives (runs (spec.ParametersOf (first ∷ [])) tokens.old) result tokens.new }
    ensures shorter { length tokens.new ≤ length tokens.old }
{
    let mut found = Items::new(alloc);
    found.push(first)?;
    'commas: while let Some(_) = tokens.next_if(Kind::Comma) {
        let next = read_parameter(alloc, tokens)?;
        found.push(next)?;
    }
    Ok(found)
}

fn is_void_word(kind: &BaseKind) -> bool
    ensures { result ≡ is_void_word kind.now }
{
    match kind {
        BaseKind::Void => true,
        BaseKind::Int
        | BaseKind::Char
        | BaseKind::UnsignedInt
        | BaseKind::UnsignedChar
        | BaseKind::Struct(_) => false,
    }
}

// Whether it is the single word `void`.
fn is_void_alone(parameter: &Parameter) -> bool
    ensures { result ≡ is_void_alone parameter.now }
{
    is_void_word(&parameter.base.kind)
        && !parameter.base.is_const
        && parameter.stars == 0
        && !parameter.name.is_some()
}

// The parameters of a list: the single word `void` is none.
fn proper(alloc: Global, parameters: Items<Parameter>) -> Items<Parameter>
    ensures { result ≡ proper parameters }
{
    if let [only] = parameters.as_slice()
        && is_void_alone(only)
    {
        return Items::new(alloc);
    }
    parameters
}

/// Parameters behind their parenthesis, with the closing one.
#[tactic(auto, using(text_grammar::specs::laws::ProgramWalks::runs_walk))]
pub fn read_parameter_list(alloc: Global, tokens: &mut Cursor<'_>) -> Result<Items<Parameter>, Stop>
    ensures reads { Gives (runs spec.ParameterList tokens.old) result tokens.new }
    ensures shorter { length tokens.new ≤ length tokens.old }
{
    if let Some(_) = tokens.next_if(Kind::RParen) {
        return Ok(Items::new(alloc));
    }
    let first = read_parameter(alloc, tokens)?;
    let parameters = read_parameters(alloc, tokens, first)?;
    let _ = tokens.expect(Kind::RParen)?;
    Ok(proper(alloc, parameters))
}

/// Whether each parameter has a name.
pub fn all_named(parameters: &Items<Parameter>) -> bool
    ensures { result ≡ all_named parameters.now }
{
    'parameters: for parameter in parameters.as_slice() {
        if parameter.name.is_none() {
            return false;
        }
    }
    true
}
