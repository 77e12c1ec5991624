// What the objects of units hold.
use crate::forms::form_of;
use elf_file::{ObjectParts, SymbolKind, SymbolPart, SymbolPlace};
use second_code::{is_light, object_parts};
use std::alloc::{AllocError, Global};

// The parts of the object of a unit.
fn parts_of(alloc: Global, unit: &[u8]) -> Result<Option<ObjectParts>, AllocError> {
    let Some(items) = form_of(alloc, unit)? else {
        return Ok(None);
    };
    if !is_light(items.as_slice()) {
        return Ok(None);
    }
    Ok(Some(object_parts(alloc, &items)?))
}

// Where a defined function stands in text, and how many bytes it has.
type Span = Option<(u32, u32)>;

fn is_symbol(symbol: &SymbolPart, name: &[u8], local: bool, span: Span) -> bool {
    let as_wanted = match span {
        Some((begin, extent)) => {
            symbol.kind == SymbolKind::Func
                && symbol.place == SymbolPlace::At(1)
                && symbol.value == begin
                && symbol.size == extent
        }
        None => symbol.kind == SymbolKind::NoType && symbol.place == SymbolPlace::Undefined,
    };
    as_wanted && symbol.name.as_slice() == name && symbol.local == local
}

fn has_symbols(parts: &ObjectParts, rows: &[(&[u8], bool, Span)]) -> bool {
    for (symbol, (name, local, span)) in parts.symbols.as_slice().iter().zip(rows) {
        if !is_symbol(symbol, name, *local, *span) {
            return false;
        }
    }
    parts.symbols.len() == rows.len()
}

// Whether the relocations have these places and these symbols.
fn has_relocs(parts: &ObjectParts, rows: &[(u32, u32)]) -> bool {
    for (reloc, (offset, symbol)) in parts.relocs.as_slice().iter().zip(rows) {
        if reloc.offset != *offset || reloc.symbol != *symbol {
            return false;
        }
    }
    parts.relocs.len() == rows.len()
}

#[test]
fn gives_what_the_object_of_a_unit_holds(rt: HostRuntime) -> Result<(), AllocError> {
    let unit = b"int f(void); int main(void) { f(); putbyte(66); return 3; }";
    let text = b"\xe8\xfc\xff\xff\xff\xb8\x42\0\0\0\x50\xe8\xfc\xff\xff\xff\x58\xb8\x03\0\0\0\xc3";
    let parts = parts_of(rt.alloc(), unit)?.expect(&rt, "a unit");
    assert!(rt; parts.text.as_slice() == text.as_slice());
    let symbols: [(&[u8], bool, Span); 3] = [
        (b"f", false, None),
        (b"main", false, Some((0, 23))),
        (b"putbyte", false, None),
    ];
    assert!(rt; has_symbols(&parts, &symbols));
    assert!(rt; has_relocs(&parts, &[(1, 1), (12, 3)]));
    Ok(())
}

#[test]
fn puts_static_functions_first(rt: HostRuntime) -> Result<(), AllocError> {
    let unit =
        b"int h(void); int g(void); static int f(void) { return 1; } int main(void) { g(); f(); return 0; }";
    let parts = parts_of(rt.alloc(), unit)?.expect(&rt, "a unit");
    let symbols: [(&[u8], bool, Span); 3] = [
        (b"f", true, Some((0, 6))),
        (b"g", false, None),
        (b"main", false, Some((6, 16))),
    ];
    assert!(rt; has_symbols(&parts, &symbols));
    assert!(rt; has_relocs(&parts, &[(7, 2), (12, 1)]));
    Ok(())
}
