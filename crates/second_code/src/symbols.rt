// The symbols of a unit's object.
ghost use Rattle.std.specs.Prelude.{◌≡◌, map, IfOk};
ghost use Rattle.second_code.specs.Parts.{symbol_from};
ghost use Rattle.second_code.specs.PartSteps.{bytes_of, found_at};

use crate::definitions::{Definitions, look_up};
use crate::text::TEXT;
use cc_base::Name;
use elf_file::{SymbolKind, SymbolPart, SymbolParts, SymbolPlace};
use std::alloc::{AllocError, Global};

// The symbol of a name.
fn symbol(
    alloc: Global,
    name: &[u8],
    definitions: &Definitions<'_>,
) -> Result<SymbolPart, AllocError>
    ensures { IfOk result (λ symbol. symbol ≡ symbol_from name.now (found_at definitions.now name.now)) }
{
    let found = look_up(definitions, name);
    let name = Name::from_slice(alloc, name)?;
    let Some(definition) = found else {
        return Ok(SymbolPart {
            name,
            local: false,
            kind: SymbolKind::NoType,
            place: SymbolPlace::Undefined,
            value: 0,
            size: 0,
        });
    };
    Ok(SymbolPart {
        name,
        local: definition.local,
        kind: SymbolKind::Func,
        place: SymbolPlace::At(TEXT),
        value: definition.begin,
        size: definition.extent,
    })
}

// The symbols of these names.
pub(crate) fn symbols(
    alloc: Global,
    names: &[&[u8]],
    definitions: &Definitions<'_>,
) -> Result<SymbolParts, AllocError>
    ensures { IfOk result (λ symbols. symbols ≡ map (λ name. symbol_from name (found_at definitions.now name)) (bytes_of names.now)) }
{
    let mut symbols = SymbolParts::new(alloc);
    for name in names {
        symbols.push(symbol(alloc, name, definitions)?)?;
    }
    Ok(symbols)
}
