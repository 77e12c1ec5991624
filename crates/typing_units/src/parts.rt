// Objects of file scope in the typed unit.
ghost use Rattle.std.specs.Prelude.{◌≡◌, map, IfOk};
ghost use Rattle.typing_units.specs.Objects.{is_writable, is_local_symbol, name_of, word_use, global_part};

use cc_base::{GlobalPart, Name, Sequence, WordUse, WordUses};
use std::alloc::{AllocError, Global};
use text_grammar::{Base, Declarator};
use typing_declarations::Whole;
use typing_initialisers::{Data, Pointed};
use typing_symbols::Symbols;
use typing_types::Layout;

fn is_writable(base: &Base, declarator: &Declarator) -> bool
    ensures { result ≡ is_writable base.now declarator.now }
{
    !(base.is_const && declarator.stars == 0)
}

// The name of a symbol; empty where it is none.
fn name_of(alloc: Global, symbols: &Symbols<'_>, number: u32) -> Result<Name, AllocError>
    ensures { IfOk result (λ name. name ≡ name_of symbols.now number) }
{
    if number < symbols.len() {
        Sequence::from_slice(alloc, symbols.name(number))
    } else {
        Ok(Sequence::new(alloc))
    }
}

fn word_use(alloc: Global, symbols: &Symbols<'_>, word: &Pointed) -> Result<WordUse, AllocError>
    ensures { IfOk result (λ w. w ≡ word_use symbols.now word.now) }
{
    Ok(WordUse {
        offset: word.offset,
        name: name_of(alloc, symbols, word.to.symbol)?,
        plus: word.to.plus,
    })
}

fn word_uses(
    alloc: Global,
    symbols: &Symbols<'_>,
    words: &[Pointed],
) -> Result<WordUses, AllocError>
    ensures { IfOk result (λ uses. uses ≡ map (word_use symbols.now) words.now) }
{
    let mut uses = Sequence::new(alloc);
    'words: for word in words {
        uses.push(word_use(alloc, symbols, word)?)?;
    }
    Ok(uses)
}

/// An object of file scope, which begins with this content.
pub(crate) fn global_part(
    alloc: Global,
    whole: &Whole<'_>,
    base: &Base,
    declarator: &Declarator,
    shape: Option<Layout>,
    content: Data,
) -> Result<GlobalPart, AllocError>
    ensures { IfOk result (λ part. part ≡ global_part whole.now base.now declarator.now shape content) }
{
    let name = declarator.name.bytes.as_slice();
    let uses = word_uses(alloc, &whole.symbols, content.words.as_slice())?;
    let (size, align) = match shape {
        Some(shape) => (shape.size(), shape.align()),
        None => (0, 1),
    };
    Ok(GlobalPart {
        name: Sequence::from_slice(alloc, name)?,
        local: whole.symbols.is_local(whole.symbol(name)),
        writable: is_writable(base, declarator),
        size,
        align,
        bytes: content.bytes,
        uses,
        shared: false,
    })
}
