// The definitions that all objects see, by their names.
ghost use Rattle.std.specs.Str.{bytes_eq};
ghost use Rattle.std.specs.Prelude.{◌≡◌, ◌≢◌, ◌<◌, ℕ, List, if◌then◌else◌, [], ◌∷◌, ◌++◌, length, Some, None, OnOk, IfErr, IfOk};
ghost use Rattle.cc_base.specs.Faces.{first_answer};
ghost use Rattle.elf_file.specs.Object.{symbol_of};
ghost use Rattle.elf_linker.specs.Names.{is_definition, all_symbols, doubled};
ghost use Rattle.elf_linker.specs.Linked.{object_at};
ghost use Rattle.elf_linker.specs.LinkSteps.{found_at, symbol_at, symbols_before, AreNoted, doubled_at};
ghost use Rattle.elf_linker.specs.declared.fault.LinkFault.{LinkFault};

use crate::fault::LinkFault;
use crate::objects::Objects;
use elf_file::{ObjectView, SymbolPlace};
use indexmap::IndexMap;
use std::alloc::{AllocError, Global};

/// A definition: the number of its object, and that of its symbol there.
#[derive(Clone, Copy, Drop)]
pub struct Site {
    pub object: u32,
    pub symbol: u32,
}

/// The first definition of each name.
pub type Definitions<'a> = IndexMap<&'a [u8], Site>;

// The definition of a name.
pub(crate) fn look_up(definitions: &Definitions<'_>, name: &[u8]) -> Option<Site>
    ensures { result ≡ found_at definitions.now name.now }
{
    definitions.get(name).copied()
}

// Whether a symbol is a definition that other objects see.
fn is_definition(view: &ObjectView<'_>, symbol: u32) -> bool
    requires { symbol < length view.now.symbols }
    ensures { result ≡ is_definition (symbol_of view.now symbol) }
{
    if view.symbol_local(symbol) {
        return false;
    }
    match view.symbol_place(symbol) {
        SymbolPlace::Undefined => false,
        SymbolPlace::At(_) => true,
        SymbolPlace::Absolute => false,
    }
}

// Notes the definition of a name that has none so far.
fn note<'a>(definitions: &mut Definitions<'a>, name: &'a [u8], site: Site) -> Result<(), AllocError>
    requires { found_at definitions.old name.now ≡ None }
    ensures { OnOk result ((other : List ℕ) → found_at definitions.new other ≡ (if bytes_eq name.now other then Some site else found_at definitions.old other)) }
{
    definitions.insert(name, site)?;
    Ok(())
}

// Notes what a symbol defines. All symbols before it are noted.
fn note_symbol<'a>(
    definitions: &mut Definitions<'a>,
    objects: &Objects<'a>,
    number: u32,
    symbol: u32,
) -> Result<(), LinkFault>
    requires object { number < length objects.now }
    requires symbol { symbol < length (object_at objects.now number).symbols }
    requires noted { AreNoted objects.now (symbols_before objects.now number symbol) definitions.old }
    ensures noted { OnOk result (AreNoted objects.now (symbols_before objects.now number symbol ++ symbol_at objects.now number symbol ∷ []) definitions.new) }
    ensures none { IfOk result (λ _. doubled_at objects.now number symbol (symbol_at objects.now number symbol) ≡ None) }
    ensures fault { IfErr result (λ fault. fault ≢ LinkFault.Memory → doubled_at objects.now number symbol (symbol_at objects.now number symbol) ≡ Some fault) }
{
    let view = objects.at(number);
    if !is_definition(view, symbol) {
        return Ok(());
    }
    let name = view.symbol_name(symbol);
    let twice = LinkFault::Doubled {
        object: number,
        symbol,
    };
    if look_up(definitions, name).is_some() {
        return Err(twice);
    }
    note(
        definitions,
        name,
        Site {
            object: number,
            symbol,
        },
    )?;
    Ok(())
}

// Notes what an object defines. All objects before it are noted.
fn note_object<'a>(
    definitions: &mut Definitions<'a>,
    objects: &Objects<'a>,
    number: u32,
) -> Result<(), LinkFault>
    requires object { number < length objects.now }
    requires noted { AreNoted objects.now (symbols_before objects.now number 0) definitions.old }
    ensures noted { OnOk result (AreNoted objects.now (symbols_before objects.now number (length (object_at objects.now number).symbols)) definitions.new) }
    ensures none { IfOk result (λ _. doubled objects.now number (object_at objects.now number) ≡ None) }
    ensures fault { IfErr result (λ fault. fault ≢ LinkFault.Memory → doubled objects.now number (object_at objects.now number) ≡ Some fault) }
{
    for symbol in 0..objects.at(number).symbols() {
        note_symbol(definitions, objects, number, symbol)?;
    }
    Ok(())
}

/// The definitions of all objects. A name that is defined twice is refused.
pub(crate) fn definitions<'a>(
    alloc: Global,
    objects: &Objects<'a>,
) -> Result<Definitions<'a>, LinkFault>
    ensures noted { IfOk result (λ definitions. AreNoted objects.now (all_symbols objects.now) definitions) }
    ensures none { IfOk result (λ _. first_answer (doubled objects.now) 0 objects.now ≡ None) }
    ensures fault { IfErr result (λ fault. fault ≢ LinkFault.Memory → first_answer (doubled objects.now) 0 objects.now ≡ Some fault) }
{
    let mut definitions = Definitions::new(alloc);
    for number in 0..objects.len() {
        note_object(&mut definitions, objects, number)?;
    }
    Ok(definitions)
}
