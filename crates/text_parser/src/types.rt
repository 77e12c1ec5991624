// The words of types.
ghost use Rattle.std.specs.Prelude.{◌≡◌, ◌≤◌, length};
ghost use Rattle.text_grammar.specs.laws.Programs.{head, runs, walk, is_type_word, begins_type};
ghost use Rattle.text_grammar.specs.laws.Programs as spec;
ghost use Rattle.text_parser.specs.Descent.{Gives};

use crate::cursor::Cursor;
use crate::lexeme::Lexeme;
use crate::stop::Stop;
use std::alloc::Global;
use text_grammar::{Base, BaseKind, Kind, TypeName};

#[tactic(auto, using(crate::proofs::KindLaws::no_type_word))]
fn is_type_word(kind: Kind) -> bool
    ensures { result ≡ is_type_word kind }
{
    match kind {
        Kind::KwConst
        | Kind::KwInt
        | Kind::KwChar
        | Kind::KwVoid
        | Kind::KwSigned
        | Kind::KwUnsigned
        | Kind::KwStruct => true,
        _ => false,
    }
}

/// Whether the next token begins a type.
pub fn begins_type(tokens: &Cursor<'_>) -> bool
    ensures { result ≡ begins_type (head tokens.now) }
{
    match tokens.peek() {
        Some(x) => is_type_word(x.kind()),
        None => false,
    }
}

// Behind `signed`.
fn read_signed(tokens: &mut Cursor<'_>, x: &Lexeme<'_>) -> Result<(u32, BaseKind), Stop>
    ensures reads { Gives (walk runs (spec.signed_words x.now) tokens.old) result tokens.new }
    ensures shorter { length tokens.new ≤ length tokens.old }
{
    if let Some(y) = tokens.next_if(Kind::KwInt) {
        return Ok((y.at(), BaseKind::Int));
    }
    if let Some(y) = tokens.next_if(Kind::KwChar) {
        return Ok((y.at(), BaseKind::Char));
    }
    Ok((x.at(), BaseKind::Int))
}

// Behind `unsigned`.
fn read_unsigned(tokens: &mut Cursor<'_>, x: &Lexeme<'_>) -> Result<(u32, BaseKind), Stop>
    ensures reads { Gives (walk runs (spec.unsigned_words x.now) tokens.old) result tokens.new }
    ensures shorter { length tokens.new ≤ length tokens.old }
{
    if let Some(y) = tokens.next_if(Kind::KwInt) {
        return Ok((y.at(), BaseKind::UnsignedInt));
    }
    if let Some(y) = tokens.next_if(Kind::KwChar) {
        return Ok((y.at(), BaseKind::UnsignedChar));
    }
    Ok((x.at(), BaseKind::UnsignedInt))
}

// Behind `struct`.
fn read_tag(alloc: Global, tokens: &mut Cursor<'_>, x: &Lexeme<'_>) -> Result<(u32, BaseKind), Stop>
    ensures reads { Gives (walk runs (spec.struct_words x.now) tokens.old) result tokens.new }
    ensures shorter { length tokens.new ≤ length tokens.old }
{
    let name = tokens.expect(Kind::Id)?;
    Ok((name.at(), BaseKind::Struct(name.bytes(alloc)?)))
}

#[tactic(auto, using(text_grammar::specs::laws::ProgramWalks::runs_walk))]
fn read_base_word(alloc: Global, tokens: &mut Cursor<'_>) -> Result<(u32, BaseKind), Stop>
    ensures reads { Gives (runs spec.BaseWord tokens.old) result tokens.new }
    ensures shorter { length tokens.new ≤ length tokens.old }
{
    if let Some(x) = tokens.next_if(Kind::KwInt) {
        return Ok((x.at(), BaseKind::Int));
    }
    if let Some(x) = tokens.next_if(Kind::KwChar) {
        return Ok((x.at(), BaseKind::Char));
    }
    if let Some(x) = tokens.next_if(Kind::KwVoid) {
        return Ok((x.at(), BaseKind::Void));
    }
    if let Some(x) = tokens.next_if(Kind::KwSigned) {
        return read_signed(tokens, &x);
    }
    if let Some(x) = tokens.next_if(Kind::KwUnsigned) {
        return read_unsigned(tokens, &x);
    }
    let x = tokens.expect(Kind::KwStruct)?;
    read_tag(alloc, tokens, &x)
}

/// A type without its stars.
#[tactic(auto, using(text_grammar::specs::laws::ProgramWalks::runs_walk))]
pub fn read_base(alloc: Global, tokens: &mut Cursor<'_>) -> Result<Base, Stop>
    ensures reads { Gives (runs spec.BaseType tokens.old) result tokens.new }
    ensures shorter { length tokens.new ≤ length tokens.old }
{
    if let Some(_) = tokens.next_if(Kind::KwConst) {
        let (at, kind) = read_base_word(alloc, tokens)?;
        return Ok(Base {
            at,
            is_const: true,
            kind,
        });
    }
    let (at, kind) = read_base_word(alloc, tokens)?;
    Ok(Base {
        at,
        is_const: false,
        kind,
    })
}

/// The number of the stars that come next.
#[tactic(auto, using(text_grammar::specs::laws::ProgramWalks::runs_walk))]
pub fn read_stars(tokens: &mut Cursor<'_>) -> Result<usize, Stop>
    ensures reads { Gives (runs (spec.StarsOf 0) tokens.old) result tokens.new }
    ensures shorter { length tokens.new ≤ length tokens.old }
{
    let left = tokens.left();
    let mut stars = 0;
    'stars: while let Some(_) = tokens.next_if(Kind::Star) {
        stars += 1;
    }
    Ok(stars)
}

/// A type with its stars.
#[tactic(auto, using(text_grammar::specs::laws::ProgramWalks::runs_walk))]
pub fn read_type(alloc: Global, tokens: &mut Cursor<'_>) -> Result<TypeName, Stop>
    ensures reads { Gives (runs spec.TypeOf tokens.old) result tokens.new }
    ensures shorter { length tokens.new ≤ length tokens.old }
{
    let base = read_base(alloc, tokens)?;
    let stars = read_stars(tokens)?;
    Ok(TypeName { base, stars })
}
