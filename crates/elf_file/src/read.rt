// Reads an object from its file.
ghost use Rattle.std.specs.Prelude.{◌≡◌, ◌+◌, ◌/◌, ◌%◌, ◌^◌, ◌<◌, ◌≤◌, ◌↔◌, [], length, IsTrue, IfOk, IfSome, IfNone};
ghost use Rattle.elf_file.specs.Places.{Stands, word_at as word_in, half_at as half_in};
ghost use Rattle.elf_file.specs.Written.{ZerosUpTo, symbol_entry, reloc_entry, section_names};
ghost use Rattle.elf_file.specs.View.{IsWhole};
ghost use Rattle.elf_file.specs.declared.layout.Sizes.{Sizes};
ghost use Rattle.elf_file.specs.WellFormed.{IsPlaced, IsNamed, SymbolFits, RelocFits};
ghost use Rattle.elf_file.specs.Object.{place_of, symbol_in, reloc_in, symbol_bytes, reloc_bytes, strings_in};
ghost use Rattle.elf_file.specs.Checks.{sizes_at, FrameStands, EntryFits, EntriesFit, NamesStand, LocalsFirst, RelocEntryFits, RelocsFit, RelocsRise, symbols_of, sections_in, HasSizes, SymbolsStand, RelocsStand, AllStands};

use crate::fields::{
    ABSOLUTE, half_at, name_at, reloc_of_entry, slice_at, symbol_kind, symbol_place, word_at,
};
use crate::layout::{
    NAMES_SIZE, Places, RELOC_SIZE, SYMBOL_SIZE, Sizes, TABLE_SIZE, TEXT_AT, length_of,
};
use crate::parts::{RelocPart, SymbolKind, SymbolPlace};
use crate::write::{SECTION_NAMES, put_ending, put_header};
use std::alloc::{AllocError, Global};

/// How many symbols a symbol table has at most, entry 0 included: a relocation gives a symbol's number in 24 bits.
const MOST_SYMBOLS: u32 = 1 << 24;

// The sizes that the section headers give, which stand at this place.
fn sizes_at_headers(file: &[u8], headers: usize) -> Sizes
    requires { headers + 440 ≤ length file.now }
    ensures { result ≡ sizes_at file.now headers }
{
    Sizes {
        text: word_at(file, headers + 60),
        fixed: 0,
        held: 0,
        zeros: 0,
        text_relocs: word_at(file, headers + 220) / 8,
        fixed_relocs: 0,
        held_relocs: 0,
        symbols: word_at(file, headers + 340) / 16,
        locals: word_at(file, headers + 348),
        strings: word_at(file, headers + 380),
    }
}

// Whether these bytes stand at a place of the file.
pub(crate) fn stands(file: &[u8], at: u32, bytes: &[u8]) -> bool
    requires inside { at + length bytes.now ≤ length file.now }
    requires small { length file.now < 2 ^ 32 }
    ensures { IsTrue result ↔ Stands file.now at bytes.now }
{
    slice_at(file, at, bytes.len() as u32) == bytes
}

// Whether there are only zeros from one place of the file up to another.
pub(crate) fn zeros_stand(file: &[u8], from: u32, to: u32) -> bool
    requires order { from ≤ to }
    requires inside { to ≤ length file.now }
    ensures { IsTrue result ↔ ZerosUpTo file.now from to }
{
    slice_at(file, from, to - from)
        .iter()
        .all(|byte| *byte == 0)
}

// Whether the headers, the names of the sections and the gaps are as written.
fn frame_stands(alloc: Global, file: &[u8], sizes: Sizes, at: Places) -> Result<bool, AllocError>
    requires { IsWhole file.now sizes at }
    ensures { IfOk result (λ yes. IsTrue yes ↔ FrameStands file.now sizes) }
{
    let mut header = Vec::new(alloc);
    put_header(&mut header, at.headers)?;
    let mut ending = Vec::new(alloc);
    put_ending(&mut ending, sizes, at)?;
    Ok(pieces_stand(file, sizes, at, header.as_slice(), ending.as_slice()))
}

// Whether the file begins and ends so, and the names of the sections and the gap before the relocations are as written.
fn pieces_stand(file: &[u8], sizes: Sizes, at: Places, header: &[u8], ending: &[u8]) -> bool
    requires whole { IsWhole file.now sizes at }
    requires header { length header.now ≡ 64 }
    requires ending { at.names + 84 + length ending.now ≡ length file.now }
    ensures { IsTrue result ↔ (Stands file.now 0 header.now × ZerosUpTo file.now (64 + sizes.text) at.zeros
        × Stands file.now at.names section_names × Stands file.now (at.names + 84) ending.now) }
{
    stands(file, 0, header)
        && zeros_stand(file, TEXT_AT + sizes.text, at.zeros)
        && stands(file, at.names, SECTION_NAMES)
        && stands(file, at.names + NAMES_SIZE, ending)
}

// Whether an entry of the symbol table is as written for its symbol, wherever the name stands.
fn entry_is_written(entry: &[u8]) -> bool
    requires { length entry.now ≡ 16 }
    ensures { IsTrue result ↔ (entry.now ≡ symbol_entry (word_in entry.now 0) (symbol_in [] entry.now)) }
{
    info_is_written(entry[12]) && entry[13] == 0
}

// Whether a symbol's binding is local or global and its type is one of the types.
fn info_is_written(info: u8) -> bool
    ensures { IsTrue result ↔ ((info / 16 ≤ 1) × (info % 16 ≤ 4)) }
{
    info / 16 <= 1 && info % 16 <= 4
}

// Whether a relocation's entry is as written for its relocation.
fn reloc_is_written(entry: &[u8]) -> bool
    requires { length entry.now ≡ 8 }
    ensures { IsTrue result ↔ (entry.now ≡ reloc_entry (reloc_in entry.now)) }
{
    entry[4] == 1 || entry[4] == 2
}

// Whether the symbol of an entry lies where a symbol may, in an object whose sections have these sizes.
fn is_placed(sections: &[u32; 5], entry: &[u8]) -> bool
    requires { length entry.now ≡ 16 }
    ensures { IsTrue result ↔ IsPlaced sections.now (symbol_in [] entry.now) (place_of (half_in entry.now 14)) }
{
    match symbol_place(half_at(entry, 14)) {
        SymbolPlace::Undefined => entry[12] / 16 != 0,
        SymbolPlace::At(section @ 1..=4) => {
            let end = u64::from(word_at(entry, 4)) + u64::from(word_at(entry, 8));
            end <= u64::from(sections[section as usize])
        }
        SymbolPlace::At(_) => false,
        SymbolPlace::Absolute => symbol_kind(entry[12] % 16) == SymbolKind::File,
    }
}

// Whether the symbol of an entry has a name and a type that other objects may see.
fn is_named(strings: &[u8], entry: &[u8]) -> bool
    requires { length entry.now ≡ 16 }
    ensures { IsTrue result ↔ IsNamed (symbol_in strings.now entry.now) }
{
    let kind = symbol_kind(entry[12] % 16);
    kind != SymbolKind::Section
        && kind != SymbolKind::File
        && !name_at(strings, word_at(entry, 0) as usize).is_empty()
}

// Whether the symbol of an entry fits an object whose sections have these sizes.
fn symbol_fits(sections: &[u32; 5], strings: &[u8], entry: &[u8]) -> bool
    requires { length entry.now ≡ 16 }
    ensures { IsTrue result ↔ SymbolFits sections.now (symbol_in strings.now entry.now) }
{
    is_placed(sections, entry) && (entry[12] / 16 == 0 || is_named(strings, entry))
}

// Whether an entry of the symbol table is as written, wherever its name stands, and its symbol fits.
fn entry_fits(sections: &[u32; 5], strings: &[u8], entry: &[u8]) -> bool
    requires { length entry.now ≡ 16 }
    ensures { IsTrue result ↔ EntryFits sections.now strings.now entry.now }
{
    entry_is_written(entry) && symbol_fits(sections, strings, entry)
}

// The entry of a symbol.
fn entry_at(file: &[u8], sizes: Sizes, at: Places, symbol: u32) -> &[u8]
    requires whole { IsWhole file.now sizes at }
    requires inside { symbol < sizes.symbols }
    ensures bytes { result.now ≡ symbol_bytes file.now sizes symbol }
    ensures len { length result.now ≡ 16 }
{
    slice_at(file, at.symbols + SYMBOL_SIZE * symbol, SYMBOL_SIZE)
}

// The string table.
fn strings_at(file: &[u8], sizes: Sizes, at: Places) -> &[u8]
    requires whole { IsWhole file.now sizes at }
    ensures bytes { result.now ≡ strings_in file.now sizes }
    ensures len { length result.now ≡ sizes.strings }
{
    slice_at(file, at.strings, sizes.strings)
}

// The entry of a relocation.
fn reloc_entry_at(file: &[u8], sizes: Sizes, at: Places, index: u32) -> &[u8]
    requires whole { IsWhole file.now sizes at }
    requires inside { index < sizes.text_relocs }
    ensures bytes { result.now ≡ reloc_bytes file.now sizes index }
    ensures len { length result.now ≡ 8 }
{
    slice_at(file, at.zeros + RELOC_SIZE * index, RELOC_SIZE)
}

// Whether each entry of the symbol table but entry 0 is as written, wherever its name stands, and its symbol fits.
fn entries_fit(file: &[u8], sizes: Sizes, at: Places) -> bool
    requires { IsWhole file.now sizes at }
    ensures { IsTrue result ↔ EntriesFit (sections_in sizes) file.now sizes }
{
    let sections = [0, sizes.text, sizes.fixed, sizes.held, sizes.zeros];
    let strings = strings_at(file, sizes, at);
    for symbol in 1..sizes.symbols {
        if !entry_fits(&sections, strings, entry_at(file, sizes, at, symbol)) {
            return false;
        }
    }
    true
}

// Whether the names stand in the string table one after the other, and nothing else does.
fn names_stand(file: &[u8], sizes: Sizes, at: Places) -> bool
    requires { IsWhole file.now sizes at }
    ensures { IsTrue result ↔ NamesStand file.now sizes }
{
    let strings = strings_at(file, sizes, at);
    let mut name = 1;
    for symbol in 1..sizes.symbols {
        if word_at(entry_at(file, sizes, at, symbol), 0) as usize != name {
            return false;
        }
        name += name_at(strings, name).len() + 1;
        if name > strings.len() {
            return false;
        }
    }
    name == strings.len()
}

// Whether the local symbols are the first ones, and as many as the sizes say.
fn locals_first(file: &[u8], sizes: Sizes, at: Places) -> bool
    requires { IsWhole file.now sizes at }
    ensures { IsTrue result ↔ LocalsFirst file.now sizes }
{
    let mut locals = 1;
    for symbol in 1..sizes.symbols {
        if entry_at(file, sizes, at, symbol)[12] / 16 == 0 {
            if locals != symbol {
                return false;
            }
            locals += 1;
        }
    }
    locals == sizes.locals
}

// Whether a relocation of an object whose sections have these sizes fits.
fn reloc_fits(file: &[u8], sizes: Sizes, at: Places, entry: &[u8]) -> bool
    requires whole { IsWhole file.now sizes at }
    requires long { length entry.now ≡ 8 }
    ensures { IsTrue result ↔ RelocFits (sections_in sizes) (symbols_of file.now sizes) (reloc_in entry.now) }
{
    let reloc = reloc_of_entry(entry);
    if !is_inside(sizes, reloc) {
        return false;
    }
    half_at(entry_at(file, sizes, at, reloc.symbol), 14) != ABSOLUTE
}

// Whether the word that a relocation changes is in the text, and its symbol in the symbol table.
fn is_inside(sizes: Sizes, reloc: RelocPart) -> bool
    ensures { IsTrue result ↔ ((reloc.offset + 4 ≤ sizes.text) × (0 < reloc.symbol) × (reloc.symbol < sizes.symbols)) }
{
    u64::from(reloc.offset) + 4 <= u64::from(sizes.text)
        && 0 < reloc.symbol
        && reloc.symbol < sizes.symbols
}

// Whether an entry of the relocation table is as written, and its relocation fits.
fn reloc_entry_fits(file: &[u8], sizes: Sizes, at: Places, entry: &[u8]) -> bool
    requires whole { IsWhole file.now sizes at }
    requires long { length entry.now ≡ 8 }
    ensures { IsTrue result ↔ RelocEntryFits (sections_in sizes) entry.now (symbols_of file.now sizes) }
{
    reloc_is_written(entry) && reloc_fits(file, sizes, at, entry)
}

// Whether each entry of the relocation table is as written, and its relocation fits.
fn relocs_fit(file: &[u8], sizes: Sizes, at: Places) -> bool
    requires { IsWhole file.now sizes at }
    ensures { IsTrue result ↔ RelocsFit (sections_in sizes) file.now sizes }
{
    for index in 0..sizes.text_relocs {
        if !reloc_entry_fits(file, sizes, at, reloc_entry_at(file, sizes, at, index)) {
            return false;
        }
    }
    true
}

// Whether the words that the relocations change rise, and do not overlap.
fn relocs_rise(file: &[u8], sizes: Sizes, at: Places) -> bool
    requires { IsWhole file.now sizes at }
    ensures { IsTrue result ↔ RelocsRise file.now sizes }
{
    for index in 1..sizes.text_relocs {
        let before = word_at(reloc_entry_at(file, sizes, at, index - 1), 0);
        let offset = word_at(reloc_entry_at(file, sizes, at, index), 0);
        if u64::from(offset) < u64::from(before) + 4 {
            return false;
        }
    }
    true
}

// Whether the symbol table and the string table are as written, and the symbols fit.
fn symbols_stand(file: &[u8], sizes: Sizes, at: Places) -> bool
    requires whole { IsWhole file.now sizes at }
    requires some { 0 < sizes.symbols }
    ensures { IsTrue result ↔ SymbolsStand file.now sizes }
{
    zeros_stand(file, at.symbols, at.symbols + SYMBOL_SIZE)
        && stands(file, at.strings, &[0])
        && entries_fit(file, sizes, at)
        && names_stand(file, sizes, at)
        && locals_first(file, sizes, at)
}

// Whether the relocation table is as written, and the relocations fit.
fn relocs_stand(file: &[u8], sizes: Sizes, at: Places) -> bool
    requires { IsWhole file.now sizes at }
    ensures { IsTrue result ↔ RelocsStand file.now sizes }
{
    relocs_fit(file, sizes, at) && relocs_rise(file, sizes, at)
}

// Whether the file is as written.
pub(crate) fn all_stands(
    alloc: Global,
    file: &[u8],
    sizes: Sizes,
    at: Places,
) -> Result<bool, AllocError>
    requires whole { IsWhole file.now sizes at }
    requires some { 0 < sizes.symbols }
    ensures { IfOk result (λ yes. IsTrue yes ↔ AllStands file.now sizes) }
{
    let frame = frame_stands(alloc, file, sizes, at)?;
    Ok(frame && symbols_stand(file, sizes, at) && relocs_stand(file, sizes, at))
}

// The sizes that the section headers give, where they are those of the whole file.
pub(crate) fn sizes_of_file(file: &[u8]) -> Option<Sizes>
    requires { length file.now < 2 ^ 32 }
    ensures some { IfSome result (HasSizes file.now) }
    ensures none { IfNone result ((sizes : Sizes) → HasSizes file.now sizes → ⊥) }
{
    let headers = file.len().checked_sub(TABLE_SIZE as usize)?;
    let sizes = sizes_at_headers(file, headers);
    if sizes.symbols == 0 || sizes.symbols > MOST_SYMBOLS {
        return None;
    }
    if length_of(sizes) != file.len() as u64 {
        return None;
    }
    Some(sizes)
}
