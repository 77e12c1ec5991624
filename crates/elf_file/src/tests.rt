// Files that were written down by hand from the description of the format: the runtime's object, and two small units.
ghost use Rattle.std.specs.Prelude.{◌≡◌, drop, IfOk};
ghost use Rattle.elf_file.specs.Object.{object_of};
ghost use Rattle.elf_file.specs.WellFormed.{WellFormed};
ghost use Rattle.elf_file.specs.declared.parts.ObjectParts.{ObjectParts};

use crate::{
    ElfFault, KeptKind, ObjectParts, ObjectView, RelocKind, RelocPart, RelocParts, SymbolKind,
    SymbolPart, SymbolParts, SymbolPlace, read_object, write_object,
};
use cc_base::{Bytes, Name};
use std::alloc::{AllocError, Global};
use std::test::Fail;

/// The string table of the sections' names.
const NAMES: &[u8] =
    b"\0.text\0.rodata\0.data\0.bss\0.rel.text\0.rel.rodata\0.rel.data\0.symtab\0.strtab\0.shstrtab\0";

/// The numbers of a file that differ from object to object: the size of the text, where the relocations stand, their
/// size, where the symbols stand, their size, where the strings stand, their size, where the sections' names stand and
/// where the section headers stand.
#[derive(Drop)]
struct Numbers {
    text: u32,
    relocs: [u32; 2],
    symbols: [u32; 2],
    strings: [u32; 2],
    names: u32,
    headers: u32,
}

fn put(out: &mut Vec<u8>, words: &[u32]) -> Result<(), AllocError> {
    for word in words {
        out.extend_from_slice(&word.to_le_bytes())?;
    }
    Ok(())
}

// The file of these numbers, with the text and the strings as they stand, each with the gap behind it.
fn file_of(
    alloc: Global,
    of: &Numbers,
    text: &[u8],
    entries: &[u32],
    strings: &[u8],
    gap: &[u8],
) -> Result<Vec<u8>, AllocError> {
    let mut out = Vec::new(alloc);
    put(
        &mut out,
        &[
            0x464c_457f,
            0x0001_0101,
            0,
            0,
            0x0003_0001,
            1,
            0,
            0,
            of.headers,
            0,
            52,
        ],
    )?;
    put(&mut out, &[0x0028_0000, 0x000a_000b, 0, 0, 0])?;
    out.extend_from_slice(text)?;
    put(&mut out, entries)?;
    out.extend_from_slice(strings)?;
    out.extend_from_slice(NAMES)?;
    out.extend_from_slice(gap)?;
    let [relocs, relocs_size] = of.relocs;
    let [symbols, symbols_size] = of.symbols;
    let [strings, strings_size] = of.strings;
    put(&mut out, &[0, 0, 0, 0, 0, 0, 0, 0, 0, 0])?;
    put(&mut out, &[1, 1, 6, 0, 64, of.text, 0, 0, 16, 0])?;
    put(&mut out, &[7, 1, 2, 0, relocs, 0, 0, 0, 4, 0])?;
    put(&mut out, &[15, 1, 3, 0, relocs, 0, 0, 0, 4, 0])?;
    put(&mut out, &[21, 8, 3, 0, relocs, 0, 0, 0, 4, 0])?;
    put(&mut out, &[26, 9, 0, 0, relocs, relocs_size, 8, 1, 4, 8])?;
    put(&mut out, &[36, 9, 0, 0, symbols, 0, 8, 2, 4, 8])?;
    put(&mut out, &[48, 9, 0, 0, symbols, 0, 8, 3, 4, 8])?;
    put(&mut out, &[58, 2, 0, 0, symbols, symbols_size, 9, 1, 4, 16])?;
    put(&mut out, &[66, 3, 0, 0, strings, strings_size, 0, 0, 1, 0])?;
    put(&mut out, &[74, 3, 0, 0, of.names, 84, 0, 0, 1, 0])?;
    Ok(out)
}

// The runtime's object.
fn runtime(alloc: Global) -> Result<Vec<u8>, AllocError> {
    let numbers = Numbers {
        text: 94,
        relocs: [160, 8],
        symbols: [168, 80],
        strings: [248, 29],
        names: 277,
        headers: 364,
    };
    let text = b"\xe8\xfc\xff\xff\xff\x89\xc3\xb8\x01\0\0\0\xcd\x80\
        \x53\x81\xec\x04\0\0\0\xbb\0\0\0\0\x89\xe1\xba\x01\0\0\0\xb8\x03\0\0\0\xcd\x80\x85\xc0\
        \x0f\x84\x09\0\0\0\x0f\xb6\x04\x24\xe9\x05\0\0\0\xb8\xff\xff\xff\xff\x81\xc4\x04\0\0\0\x5b\xc3\
        \x53\xbb\x01\0\0\0\x8d\x4c\x24\x08\xba\x01\0\0\0\xb8\x04\0\0\0\xcd\x80\x5b\xc3\0\0";
    let entries = [
        1,
        0x202,
        0,
        0,
        0,
        0,
        1,
        0,
        14,
        0x0001_0012,
        8,
        0,
        0,
        0x10,
        13,
        14,
        56,
        0x0001_0012,
        21,
        70,
        24,
        0x0001_0012,
    ];
    let strings = b"\0_start\0main\0getbyte\0putbyte\0";
    file_of(alloc, &numbers, text, &entries, strings, b"\0\0\0")
}

// The object of `int f(void); int main(void) { f(); putbyte(66); return 3; }`.
fn caller(alloc: Global) -> Result<Vec<u8>, AllocError> {
    let numbers = Numbers {
        text: 23,
        relocs: [88, 16],
        symbols: [104, 64],
        strings: [168, 16],
        names: 184,
        headers: 268,
    };
    let text =
        b"\xe8\xfc\xff\xff\xff\xb8\x42\0\0\0\x50\xe8\xfc\xff\xff\xff\x58\xb8\x03\0\0\0\xc3\0";
    let entries = [
        1,
        0x102,
        12,
        0x302,
        0,
        0,
        0,
        0,
        1,
        0,
        0,
        0x10,
        3,
        0,
        23,
        0x0001_0012,
        8,
        0,
        0,
        0x10,
    ];
    file_of(
        alloc,
        &numbers,
        text,
        &entries,
        b"\0f\0main\0putbyte\0",
        b"",
    )
}

// The object of `int f(void) { putbyte(65); return 0; }`.
fn callee(alloc: Global) -> Result<Vec<u8>, AllocError> {
    let numbers = Numbers {
        text: 18,
        relocs: [84, 8],
        symbols: [92, 48],
        strings: [140, 11],
        names: 151,
        headers: 236,
    };
    let text = b"\xb8\x41\0\0\0\x50\xe8\xfc\xff\xff\xff\x58\xb8\0\0\0\0\xc3\0\0";
    let entries = [7, 0x202, 0, 0, 0, 0, 1, 0, 18, 0x0001_0012, 3, 0, 0, 0x10];
    file_of(alloc, &numbers, text, &entries, b"\0f\0putbyte\0", b"\0")
}

// The symbols of an object, without entry 0.
fn symbols_of(alloc: Global, view: &ObjectView<'_>) -> Result<SymbolParts, AllocError>
    ensures { IfOk result (λ symbols. symbols ≡ drop 1 view.now.symbols) }
{
    let mut symbols = SymbolParts::new(alloc);
    for symbol in 1..view.symbols() {
        symbols.push(SymbolPart {
            name: Name::from_slice(alloc, view.symbol_name(symbol))?,
            local: view.symbol_local(symbol),
            kind: view.symbol_kind(symbol),
            place: view.symbol_place(symbol),
            value: view.symbol_value(symbol),
            size: view.symbol_size(symbol),
        })?;
    }
    Ok(symbols)
}

// The relocations of an object.
fn relocs_of(alloc: Global, view: &ObjectView<'_>) -> Result<RelocParts, AllocError>
    ensures { IfOk result (λ relocs. relocs ≡ view.now.relocs) }
{
    let mut relocs = RelocParts::new(alloc);
    for index in 0..view.relocs() {
        relocs.push(view.reloc(index))?;
    }
    Ok(relocs)
}

// The parts of an object.
fn parts_of(alloc: Global, view: &ObjectView<'_>) -> Result<ObjectParts, AllocError>
    requires { (parts : ObjectParts) × WellFormed parts × (view.now ≡ object_of parts) }
    ensures { IfOk result WellFormed }
{
    let symbols = symbols_of(alloc, view)?;
    let relocs = relocs_of(alloc, view)?;
    Ok(ObjectParts {
        text: Bytes::from_slice(alloc, view.section_bytes(1))?,
        fixed: Bytes::from_slice(alloc, view.section_bytes(2))?,
        held: Bytes::from_slice(alloc, view.section_bytes(3))?,
        zeros: view.size(4),
        symbols,
        relocs,
    })
}

#[test]
fn written_again(rt: HostRuntime) -> Result<(), Fail> {
    let alloc = rt.alloc();
    let files = [
        (runtime(alloc)?, 804),
        (caller(alloc)?, 708),
        (callee(alloc)?, 676),
    ];
    for (file, len) in &files {
        assert_eq!(rt; file.len(), *len);
        assert!(rt; file.len() < 1000);
        let view = read_object(alloc, file.as_slice())?;
        let parts = parts_of(alloc, &view)?;
        assert_eq!(rt; write_object(alloc, &parts)?.as_slice(), file.as_slice());
    }
    Ok(())
}

#[test]
fn other_files_are_refused(rt: HostRuntime) -> Result<(), Fail> {
    let alloc = rt.alloc();
    let mut shorter = callee(alloc)?;
    assert!(rt; shorter.pop().is_some());
    let mut longer = callee(alloc)?;
    longer.push(0)?;
    let mut other = callee(alloc)?;
    assert!(rt; other.len() == 676);
    other[83] = 1;
    for file in &[shorter, longer, other] {
        assert!(rt; file.len() < 1000);
        assert_eq!(rt;
            read_object(alloc, file.as_slice()).err(),
            Some(ElfFault::Form)
        );
    }
    assert_eq!(rt; read_object(alloc, b"").err(), Some(ElfFault::Form));
    Ok(())
}

#[test]
fn the_runtime_is_read(rt: HostRuntime) -> Result<(), Fail> {
    let file = runtime(rt.alloc())?;
    assert_eq!(rt; file.len(), 804);
    let view = read_object(rt.alloc(), file.as_slice())?;
    assert_eq!(rt; view.sections(), 11);
    assert_eq!(rt; view.kind(1), KeptKind::Text);
    assert_eq!(rt; [view.size(1), view.align(1), view.size(8)], [94, 16, 80]);
    assert_eq!(rt; view.symbols(), 5);
    assert_eq!(rt; view.symbol_name(3), b"getbyte".as_slice());
    assert_eq!(rt; view.symbol_kind(3), SymbolKind::Func);
    assert_eq!(rt; view.symbol_place(3), SymbolPlace::At(1));
    assert_eq!(rt; [view.symbol_value(3), view.symbol_size(3)], [14, 56]);
    assert!(rt; !view.symbol_local(3));
    assert_eq!(rt; view.symbol_place(2), SymbolPlace::Undefined);
    assert_eq!(rt; view.relocs(), 1);
    let reloc = RelocPart {
        section: 1,
        offset: 1,
        symbol: 2,
        kind: RelocKind::Rel,
    };
    assert_eq!(rt; view.reloc(0), reloc);
    Ok(())
}
