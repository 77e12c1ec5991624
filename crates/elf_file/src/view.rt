// An object in its file.
ghost use Rattle.std.specs.Prelude.{◌≡◌, ℕ, List, ◌^◌, ◌<◌, length, IfOk, IsErrOf, MatchResult};
ghost use Rattle.elf_file.specs.Object.{Object, section_of, symbol_of, reloc_of, HasBytes, object_of};
ghost use Rattle.elf_file.specs.Read.{IsFileOf, IsObject};
ghost use Rattle.elf_file.specs.ObjectBytes.{ObjectBytes};
ghost use Rattle.elf_file.specs.declared.parts.ObjectParts.{ObjectParts};
ghost use Rattle.elf_file.specs.Entry.{IsEntry};

use crate::fault::ElfFault;
use crate::fields::{
    half_at, name_at, reloc_of_entry, slice_at, symbol_kind, symbol_place, word_at,
};
use crate::layout::{NAMES_SIZE, Places, RELOC_SIZE, SECTIONS, SYMBOL_SIZE, Sizes, TEXT_AT};
use crate::parts::{KeptKind, RelocPart, SymbolKind, SymbolPlace};
use crate::read::{all_stands, sizes_of_file};
use std::alloc::Global;
use std::marker::Model;

/// An object in its file: its sections and symbols, each with entry 0, and the relocations of its kept sections in
/// section and table order. It borrows the file and copies nothing.
#[derive(Drop)]
pub struct ObjectView<'a> {
    file: &'a [u8],
    sizes: Sizes,
    at: Places,
}

impl<'a> Model for ObjectView<'a> {
    ghost use Rattle.elf_file.specs.Object.{Object, object_in};
    ghost use Rattle.elf_file.specs.View.{IsView};

    ghost Value = { Object };

    ghost view = { λ v. object_in v.file.now v.sizes };

    ghost invariant = { λ v. IsView v.file.now v.sizes v.at };
}

impl<'a> ObjectView<'a> {
    /// How many sections there are, section 0 included.
    pub fn sections(&self) -> u32
        ensures { result ≡ length self.now.sections }
    {
        let _ = &self.sizes;
        SECTIONS
    }

    /// How many symbols there are, entry 0 included.
    pub fn symbols(&self) -> u32
        ensures { result ≡ length self.now.symbols }
    {
        self.sizes.symbols
    }

    /// What a section is kept as.
    pub fn kind(&self, section: u32) -> KeptKind
        requires { section < length self.now.sections }
        ensures { result ≡ (section_of self.now section).kind }
    {
        let _ = &self.sizes;
        match section {
            1 => KeptKind::Text,
            2 => KeptKind::Fixed,
            3 => KeptKind::Held,
            4 => KeptKind::Zeros,
            _ => KeptKind::Dropped,
        }
    }

    /// How many bytes a section has.
    pub fn size(&self, section: u32) -> u32
        requires { section < length self.now.sections }
        ensures { result ≡ (section_of self.now section).size }
    {
        match section {
            0 => 0,
            1 => self.sizes.text,
            2 => self.sizes.fixed,
            3 => self.sizes.held,
            4 => self.sizes.zeros,
            5 => RELOC_SIZE * self.sizes.text_relocs,
            6 => RELOC_SIZE * self.sizes.fixed_relocs,
            7 => RELOC_SIZE * self.sizes.held_relocs,
            8 => SYMBOL_SIZE * self.sizes.symbols,
            9 => self.sizes.strings,
            _ => NAMES_SIZE,
        }
    }

    /// The alignment of a section.
    pub fn align(&self, section: u32) -> u32
        requires { section < length self.now.sections }
        ensures { result ≡ (section_of self.now section).align }
    {
        let _ = &self.sizes;
        match section {
            0 => 0,
            1 => 16,
            9..=10 => 1,
            _ => 4,
        }
    }

    /// The bytes of a kept section that is not zeroed: a slice of the file.
    pub fn section_bytes(&self, section: u32) -> &'a [u8]
        requires range { section < length self.now.sections }
        requires kept { HasBytes (section_of self.now section).kind }
        ensures { result.now ≡ (section_of self.now section).bytes }
    {
        let (at, size) = match section {
            1 => (TEXT_AT, self.sizes.text),
            2 => (self.at.fixed, self.sizes.fixed),
            _ => (self.at.held, self.sizes.held),
        };
        slice_at(self.file, at, size)
    }

    /// A symbol's name.
    pub fn symbol_name(&self, symbol: u32) -> &'a [u8]
        requires { symbol < length self.now.symbols }
        ensures { result.now ≡ (symbol_of self.now symbol).name }
    {
        let entry = slice_at(
            self.file,
            self.at.symbols + SYMBOL_SIZE * symbol,
            SYMBOL_SIZE,
        );
        let strings = slice_at(self.file, self.at.strings, self.sizes.strings);
        name_at(strings, word_at(entry, 0) as usize)
    }

    /// Whether a symbol is local.
    pub fn symbol_local(&self, symbol: u32) -> bool
        requires { symbol < length self.now.symbols }
        ensures { result ≡ (symbol_of self.now symbol).local }
    {
        self.entry(symbol)[12] / 16 == 0
    }

    /// A symbol's type.
    pub fn symbol_kind(&self, symbol: u32) -> SymbolKind
        requires { symbol < length self.now.symbols }
        ensures { result ≡ (symbol_of self.now symbol).kind }
    {
        symbol_kind(self.entry(symbol)[12] % 16)
    }

    /// Where a symbol is defined.
    pub fn symbol_place(&self, symbol: u32) -> SymbolPlace
        requires { symbol < length self.now.symbols }
        ensures { result ≡ (symbol_of self.now symbol).place }
    {
        symbol_place(half_at(self.entry(symbol), 14))
    }

    /// A symbol's value: its place in its section.
    pub fn symbol_value(&self, symbol: u32) -> u32
        requires { symbol < length self.now.symbols }
        ensures { result ≡ (symbol_of self.now symbol).value }
    {
        word_at(self.entry(symbol), 4)
    }

    /// A symbol's size.
    pub fn symbol_size(&self, symbol: u32) -> u32
        requires { symbol < length self.now.symbols }
        ensures { result ≡ (symbol_of self.now symbol).size }
    {
        word_at(self.entry(symbol), 8)
    }

    /// How many relocations there are.
    pub fn relocs(&self) -> u64
        ensures { result ≡ length self.now.relocs }
    {
        u64::from(self.sizes.text_relocs)
    }

    /// The relocation with this index, counted from 0.
    pub fn reloc(&self, index: u64) -> RelocPart
        requires { index < length self.now.relocs }
        ensures { result ≡ reloc_of self.now index }
    {
        reloc_of_entry(slice_at(
            self.file,
            self.at.zeros + RELOC_SIZE * index as u32,
            RELOC_SIZE,
        ))
    }

    /// A law of every object that is read: it is that of well-formed parts, with text alone. It does nothing.
    pub fn has_text_alone(&self)
        ensures { IsObject self.now }
    {
        let _ = &self.sizes;
    }

    // The entry of a symbol.
    fn entry(&self, symbol: u32) -> &'a [u8]
        requires { symbol < length self.now.symbols }
        ensures { IsEntry result.now (symbol_of self.now symbol) }
    {
        slice_at(
            self.file,
            self.at.symbols + SYMBOL_SIZE * symbol,
            SYMBOL_SIZE,
        )
    }
}

/// The object of a file: of the one file that is written for well-formed parts whose only bytes are text. Every other
/// file is refused as `Form`.
pub fn read_object(alloc: Global, file: &[u8]) -> Result<ObjectView<'_>, ElfFault>
    requires { length file.now < 2 ^ 32 }
    // What is read is the object of parts, and the file is the one that is written for them.
    ensures ok { IfOk result (λ view. (parts : ObjectParts) × IsFileOf parts file.now × (view ≡ object_of parts)) }
    // So its fields say what is read.
    ensures bytes { IfOk result (λ view. ObjectBytes view file.now) }
    // A file is refused only where it is the file of no parts.
    ensures form { IsErrOf result ElfFault.Form → (parts : ObjectParts) → IsFileOf parts file.now → ⊥ }
    // What is written for parts is read back as their object, unless there is no memory.
    ensures back { (parts : ObjectParts) → IsFileOf parts file.now → MatchResult result (λ view. view ≡ object_of parts) (λ fault. fault ≡ ElfFault.Memory) }
{
    let Some(sizes) = sizes_of_file(file) else {
        return Err(ElfFault::Form);
    };
    let at = Places::of(sizes);
    if !all_stands(alloc, file, sizes, at)? {
        return Err(ElfFault::Form);
    }
    Ok(ObjectView { file, sizes, at })
}

/// A file is the object of one parts only.
pub fn object_has_one_meaning()
    ensures { (one other : ObjectParts) (file : List ℕ) → IsFileOf one file → IsFileOf other file → one ≡ other }
{}
