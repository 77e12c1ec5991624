// The file of an object.
ghost use Rattle.std.specs.Prelude.{◌≡◌, ℕ, List, ◌^◌, ◌<◌, ◌≤◌, ◌++◌, length, All, OnOk, IfOk};
ghost use Rattle.elf_file.specs.Places.{words_bytes};
ghost use Rattle.elf_file.specs.Layout.{file_length, places_of, file_header};
ghost use Rattle.elf_file.specs.Written.{Written, sizes_of, kind_number, place_number, reloc_number, symbol_entry, symbol_table, string_table, reloc_entry, reloc_table, relocs_of, section_names};
ghost use Rattle.std.specs.List.{count_by, flat_map};
ghost use Rattle.elf_file.specs.WellFormed.{WellFormed};
ghost use Rattle.elf_file.specs.Pieces.{joined, contents, padded, tables, ending};
ghost use Rattle.elf_file.specs.declared.parts.ObjectParts.{ObjectParts};

use crate::bytes::{put_half, put_word, put_words, put_zeros};
use crate::layout::{
    NAMES_SIZE, Places, SectionHeader, Sizes, TABLE_SIZE, TEXT_AT, section_headers,
};
use crate::parts::{ObjectParts, RelocKind, RelocPart, SymbolKind, SymbolPart, SymbolPlace};
use cc_base::Bytes;
use std::alloc::{AllocError, Global};

/// `e_ident` (ELF, 32 bits, the low byte first, version 1), `e_type` 1 (ET_REL) and `e_machine` 3 (EM_386).
const IDENT: &[u8; 20] = b"\x7fELF\x01\x01\x01\0\0\0\0\0\0\0\0\0\x01\0\x03\0";

/// `e_ehsize` 52, `e_phentsize` 0, `e_phnum` 0, `e_shentsize` 40, `e_shnum` 11 and `e_shstrndx` 10.
const COUNTS: &[u8; 12] = b"\x34\0\0\0\0\0\x28\0\x0b\0\x0a\0";

/// How many bytes the file header has.
const HEADER_SIZE: usize = 52;

/// The names of the sections, each with its zero.
pub(crate) const SECTION_NAMES: &[u8; 84] =
    b"\0.text\0.rodata\0.data\0.bss\0.rel.text\0.rel.rodata\0.rel.data\0.symtab\0.strtab\0.shstrtab\0";

/// The file of an object, or want of memory.
pub fn write_object(alloc: Global, parts: &ObjectParts) -> Result<Vec<u8>, AllocError>
    requires { WellFormed parts.now }
    ensures { IfOk result (λ file. Written parts.now file.items) }
{
    let sizes = sizes(parts);
    let at = Places::of(sizes);
    let mut out = Vec::with_capacity(alloc, (at.headers + TABLE_SIZE) as usize)?;
    put_contents(&mut out, parts, sizes, at)?;
    put_tables(&mut out, parts)?;
    put_ending(&mut out, sizes, at)?;
    Ok(out)
}

// The number of a symbol's type in the file (gABI, symbol table).
fn kind_number_of(kind: SymbolKind) -> u8
    ensures number { result ≡ kind_number kind }
    ensures small { result < 5 }
{
    match kind {
        SymbolKind::NoType => 0,
        SymbolKind::Object => 1,
        SymbolKind::Func => 2,
        SymbolKind::Section => 3,
        SymbolKind::File => 4,
    }
}

// The number of a symbol's section in the file.
fn place_number_of(place: SymbolPlace) -> u16
    requires { place_number place < 2 ^ 16 }
    ensures { result ≡ place_number place }
{
    match place {
        SymbolPlace::Undefined => 0,
        SymbolPlace::At(section) => section as u16,
        SymbolPlace::Absolute => 0xfff1,
    }
}

// The number of a relocation's type in the file.
fn reloc_number_of(kind: RelocKind) -> u32
    ensures number { result ≡ reloc_number kind }
    ensures small { result < 3 }
{
    match kind {
        RelocKind::Abs => 1,
        RelocKind::Rel => 2,
    }
}

// Appends an entry of the symbol table, whose name stands at this place of the string table.
fn put_symbol(out: &mut Vec<u8>, name: u32, symbol: &SymbolPart) -> Result<(), AllocError>
    requires { place_number symbol.now.place < 2 ^ 16 }
    ensures { OnOk result (out.new.items ≡ out.old.items ++ symbol_entry name symbol.now) }
{
    let bind = if symbol.local { 0 } else { 1 };
    put_words(out, &[name, symbol.value, symbol.size])?;
    out.push(bind * 16 + kind_number_of(symbol.kind))?;
    out.push(0)?;
    put_half(out, place_number_of(symbol.place))
}

// Appends an entry of a relocation table.
fn put_reloc(out: &mut Vec<u8>, reloc: RelocPart) -> Result<(), AllocError>
    requires { reloc.symbol < 2 ^ 24 }
    ensures { OnOk result (out.new.items ≡ out.old.items ++ reloc_entry reloc) }
{
    put_word(out, reloc.offset)?;
    put_word(out, reloc.symbol * 256 + reloc_number_of(reloc.kind))
}

// Appends a relocation table.
fn put_relocs(out: &mut Vec<u8>, relocs: &[RelocPart]) -> Result<(), AllocError>
    requires { All (λ reloc. reloc.symbol < 2 ^ 24) relocs.now }
    ensures { OnOk result (out.new.items ≡ out.old.items ++ reloc_table relocs.now) }
{
    for reloc in relocs {
        put_reloc(out, *reloc)?;
    }
    Ok(())
}

// Appends the entries of these symbols, whose names stand in the string table from its second byte on.
fn put_symbols(out: &mut Vec<u8>, symbols: &[SymbolPart]) -> Result<(), AllocError>
    requires places { All (λ symbol. place_number symbol.place < 2 ^ 16) symbols.now }
    requires names { length (string_table symbols.now) < 2 ^ 32 }
    ensures { OnOk result (out.new.items ≡ out.old.items ++ symbol_table symbols.now) }
{
    put_words(out, &[0; 4])?;
    let mut name = 1;
    for symbol in symbols {
        put_symbol(out, name, symbol)?;
        name += symbol.name.len() as u32 + 1;
    }
    Ok(())
}

// Appends the string table of these symbols.
fn put_strings(out: &mut Vec<u8>, symbols: &[SymbolPart]) -> Result<(), AllocError>
    ensures { OnOk result (out.new.items ≡ out.old.items ++ string_table symbols.now) }
{
    out.push(0)?;
    for symbol in symbols {
        out.extend_from_slice(symbol.name.as_slice())?;
        out.push(0)?;
    }
    Ok(())
}

// How many bytes the string table of these symbols has.
fn strings_len(symbols: &[SymbolPart]) -> u32
    requires { length (string_table symbols.now) < 2 ^ 32 }
    ensures { result ≡ length (string_table symbols.now) }
{
    let mut len = 1;
    for symbol in symbols {
        len += symbol.name.len() as u32 + 1;
    }
    len
}

// How many relocations change a section.
fn relocs_of_section(relocs: &[RelocPart], section: u32) -> usize
    ensures { result ≡ relocs_of section relocs.now }
{
    relocs
        .iter()
        .filter(|reloc| reloc.section == section)
        .count()
}

// How many symbols are local.
fn locals(symbols: &[SymbolPart]) -> usize
    ensures { result ≡ count_by (λ symbol. symbol.local) symbols.now }
{
    symbols.iter().filter(|symbol| symbol.local).count()
}

// How long the parts of an object are.
fn sizes(parts: &ObjectParts) -> Sizes
    requires { file_length (sizes_of parts.now) < 2 ^ 32 }
    ensures { result ≡ sizes_of parts.now }
{
    let relocs = parts.relocs.as_slice();
    let symbols = parts.symbols.as_slice();
    Sizes {
        text: parts.text.len() as u32,
        fixed: parts.fixed.len() as u32,
        held: parts.held.len() as u32,
        zeros: parts.zeros,
        text_relocs: relocs_of_section(relocs, 1) as u32,
        fixed_relocs: relocs_of_section(relocs, 2) as u32,
        held_relocs: relocs_of_section(relocs, 3) as u32,
        symbols: symbols.len() as u32 + 1,
        locals: locals(symbols) as u32 + 1,
        strings: strings_len(symbols),
    }
}

// Appends the file header and the contents of the sections 1 to 3, each at its place.
fn put_contents(
    out: &mut Vec<u8>,
    parts: &ObjectParts,
    sizes: Sizes,
    at: Places,
) -> Result<(), AllocError>
    requires sizes { sizes ≡ sizes_of parts.now }
    requires places { at ≡ places_of sizes }
    requires small { file_length sizes < 2 ^ 32 }
    ensures { OnOk result (out.new.items ≡ out.old.items ++ joined (contents parts.now sizes at)) }
{
    put_header(out, at.headers)?;
    put_padded(out, &parts.text, at.fixed - (TEXT_AT + sizes.text))?;
    put_padded(out, &parts.fixed, at.held - (at.fixed + sizes.fixed))?;
    put_padded(out, &parts.held, at.zeros - (at.held + sizes.held))
}

// Appends the bytes of a section, and zeros up to the place of the next one.
#[tactic(auto, unfolding(crate::specs::Pieces::joined))]
fn put_padded(out: &mut Vec<u8>, bytes: &Bytes, gap: u32) -> Result<(), AllocError>
    requires { gap ≤ 15 }
    ensures { OnOk result (out.new.items ≡ out.old.items ++ joined (padded bytes.now gap)) }
{
    out.extend_from_slice(bytes.as_slice())?;
    put_zeros(out, gap as usize)
}

// Appends the file header of an object whose section headers stand at this place, and zeros up to the text.
#[tactic(auto, unfolding(crate::specs::Pieces::joined))]
pub(crate) fn put_header(out: &mut Vec<u8>, headers: u32) -> Result<(), AllocError>
    ensures { OnOk result (out.new.items ≡ out.old.items ++ joined (padded (file_header headers) 12)) }
{
    out.extend_from_slice(IDENT)?;
    put_words(out, &[1, 0, 0, headers, 0])?;
    out.extend_from_slice(COUNTS)?;
    put_zeros(out, TEXT_AT as usize - HEADER_SIZE)
}

// Appends the relocations, the symbols, and the names of the symbols and the sections.
fn put_tables(out: &mut Vec<u8>, parts: &ObjectParts) -> Result<(), AllocError>
    requires { WellFormed parts.now }
    ensures { OnOk result (out.new.items ≡ out.old.items ++ joined (tables parts.now)) }
{
    put_relocs(out, parts.relocs.as_slice())?;
    put_symbols(out, parts.symbols.as_slice())?;
    put_strings(out, parts.symbols.as_slice())?;
    put_names(out)
}

// Appends the names of the sections.
fn put_names(out: &mut Vec<u8>) -> Result<(), AllocError>
    ensures { OnOk result (out.new.items ≡ out.old.items ++ section_names) }
{
    out.extend_from_slice(SECTION_NAMES)
}

// Appends the section headers, and zeros before them.
pub(crate) fn put_ending(out: &mut Vec<u8>, sizes: Sizes, at: Places) -> Result<(), AllocError>
    requires places { at ≡ places_of sizes }
    requires small { file_length sizes < 2 ^ 32 }
    ensures { OnOk result (out.new.items ≡ out.old.items ++ joined (ending sizes at)) }
{
    put_zeros(out, (at.headers - (at.names + NAMES_SIZE)) as usize)?;
    put_headers(out, &section_headers(sizes))
}

// Appends these section headers.
fn put_headers(out: &mut Vec<u8>, headers: &[SectionHeader]) -> Result<(), AllocError>
    ensures { OnOk result (out.new.items ≡ out.old.items ++ flat_map words_bytes headers.now) }
{
    for header in headers {
        put_words(out, header)?;
    }
    Ok(())
}

/// Well-formed parts have one file: what `Written` says of a file leaves none of its bytes open.
pub fn has_one_file()
    ensures { (parts : ObjectParts) (one other : List ℕ) → WellFormed parts → Written parts one → Written parts other → one ≡ other }
{}
