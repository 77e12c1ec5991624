// The names that objects use and do not define.
ghost use Rattle.std.specs.Prelude.{◌≡◌, ◌≢◌, ◌<◌, length, Some, None, IfErr, IfOk};
ghost use Rattle.cc_base.specs.Faces.{first_answer};
ghost use Rattle.elf_file.specs.Object.{symbol_of};
ghost use Rattle.elf_linker.specs.Names.{is_use, is_object, all_symbols, unresolved, sized, size_differs};
ghost use Rattle.elf_linker.specs.Linked.{object_at};
ghost use Rattle.elf_linker.specs.LinkSteps.{symbol_at, AreNoted, unresolved_at, sized_at, agree};
ghost use Rattle.elf_linker.specs.declared.fault.LinkFault.{LinkFault};

use crate::definitions::{Definitions, look_up};
use crate::fault::LinkFault;
use crate::objects::Objects;
use elf_file::{ObjectView, SymbolKind, SymbolPlace};

// Whether a symbol is a use of a name that its object does not define.
fn is_use(view: &ObjectView<'_>, symbol: u32) -> bool
    requires { symbol < length view.now.symbols }
    ensures { result ≡ is_use (symbol_of view.now symbol) }
{
    if view.symbol_local(symbol) {
        return false;
    }
    match view.symbol_place(symbol) {
        SymbolPlace::Undefined => true,
        SymbolPlace::At(_) => false,
        SymbolPlace::Absolute => false,
    }
}

// Refuses a use of a name that no object defines.
fn find_symbol(
    definitions: &Definitions<'_>,
    objects: &Objects<'_>,
    number: u32,
    symbol: u32,
) -> Result<(), LinkFault>
    requires object { number < length objects.now }
    requires symbol { symbol < length (object_at objects.now number).symbols }
    requires noted { AreNoted objects.now (all_symbols objects.now) definitions.now }
    ensures none { IfOk result (λ _. unresolved_at objects.now number symbol (symbol_at objects.now number symbol) ≡ None) }
    ensures fault { IfErr result (λ fault. unresolved_at objects.now number symbol (symbol_at objects.now number symbol) ≡ Some fault) }
{
    let view = objects.at(number);
    if !is_use(view, symbol) {
        return Ok(());
    }
    if look_up(definitions, view.symbol_name(symbol)).is_some() {
        return Ok(());
    }
    Err(LinkFault::Unresolved {
        object: number,
        symbol,
    })
}

fn find_uses(
    definitions: &Definitions<'_>,
    objects: &Objects<'_>,
    number: u32,
) -> Result<(), LinkFault>
    requires object { number < length objects.now }
    requires noted { AreNoted objects.now (all_symbols objects.now) definitions.now }
    ensures none { IfOk result (λ _. unresolved objects.now number (object_at objects.now number) ≡ None) }
    ensures fault { IfErr result (λ fault. unresolved objects.now number (object_at objects.now number) ≡ Some fault) }
{
    for symbol in 0..objects.at(number).symbols() {
        find_symbol(definitions, objects, number, symbol)?;
    }
    Ok(())
}

/// Refuses a use of a name that no object defines.
pub(crate) fn find_all_uses(
    definitions: &Definitions<'_>,
    objects: &Objects<'_>,
) -> Result<(), LinkFault>
    requires { AreNoted objects.now (all_symbols objects.now) definitions.now }
    ensures none { IfOk result (λ _. first_answer (unresolved objects.now) 0 objects.now ≡ None) }
    ensures fault { IfErr result (λ fault. first_answer (unresolved objects.now) 0 objects.now ≡ Some fault) }
{
    for number in 0..objects.len() {
        find_uses(definitions, objects, number)?;
    }
    Ok(())
}

// Whether a use that states this size agrees with the symbol that it means.
fn agrees(stated: u32, kind: SymbolKind, size: u32) -> bool
    ensures { result ≡ agree stated kind size }
{
    match kind {
        SymbolKind::Object => stated == 0 || size == 0 || stated == size,
        SymbolKind::NoType => true,
        SymbolKind::Func => true,
        SymbolKind::Section => true,
        SymbolKind::File => true,
    }
}

// Refuses a use that states another size than its object has.
fn measure_symbol(
    definitions: &Definitions<'_>,
    objects: &Objects<'_>,
    number: u32,
    symbol: u32,
) -> Result<(), LinkFault>
    requires object { number < length objects.now }
    requires symbol { symbol < length (object_at objects.now number).symbols }
    requires noted { AreNoted objects.now (all_symbols objects.now) definitions.now }
    ensures none { IfOk result (λ _. sized_at objects.now number symbol (symbol_at objects.now number symbol) ≡ None) }
    ensures fault { IfErr result (λ fault. sized_at objects.now number symbol (symbol_at objects.now number symbol) ≡ Some fault) }
{
    let view = objects.at(number);
    if !is_use(view, symbol) {
        return Ok(());
    }
    let Some(site) = look_up(definitions, view.symbol_name(symbol)) else {
        return Ok(());
    };
    let definer = objects.at(site.object);
    let stated = view.symbol_size(symbol);
    let defined = definer.symbol_size(site.symbol);
    if agrees(stated, definer.symbol_kind(site.symbol), defined) {
        return Ok(());
    }
    Err(LinkFault::Sized {
        object: number,
        symbol,
        stated,
        defined,
    })
}

fn measure_uses(
    definitions: &Definitions<'_>,
    objects: &Objects<'_>,
    number: u32,
) -> Result<(), LinkFault>
    requires object { number < length objects.now }
    requires noted { AreNoted objects.now (all_symbols objects.now) definitions.now }
    ensures none { IfOk result (λ _. sized objects.now number (object_at objects.now number) ≡ None) }
    ensures fault { IfErr result (λ fault. sized objects.now number (object_at objects.now number) ≡ Some fault) }
{
    for symbol in 0..objects.at(number).symbols() {
        measure_symbol(definitions, objects, number, symbol)?;
    }
    Ok(())
}

/// Refuses a use that states another size than its object has.
pub(crate) fn measure_all_uses(
    definitions: &Definitions<'_>,
    objects: &Objects<'_>,
) -> Result<(), LinkFault>
    requires { AreNoted objects.now (all_symbols objects.now) definitions.now }
    ensures none { IfOk result (λ _. first_answer (sized objects.now) 0 objects.now ≡ None) }
    ensures fault { IfErr result (λ fault. first_answer (sized objects.now) 0 objects.now ≡ Some fault) }
{
    for number in 0..objects.len() {
        measure_uses(definitions, objects, number)?;
    }
    Ok(())
}
