// The code of an image.
ghost use Rattle.std.specs.Prelude.{◌≡◌, ◌+◌, ◌<◌, ◌≤◌, ◌++◌, ℕ, length, take, drop, get_or, replicate, IfOk, OnOk};
ghost use Rattle.cc_base.specs.Words.{word_bytes};
ghost use Rattle.elf_file.specs.Object.{reloc_of};
ghost use Rattle.elf_file.specs.Places.{word_at as the_word_at};
ghost use Rattle.elf_linker.specs.Placement.{text_of, text_address, texts_end};
ghost use Rattle.elf_linker.specs.Linked.{object_at, IsPlaced, IsRelocated, stored, offset};
ghost use Rattle.elf_linker.specs.LinkSteps.{AreAnswered, FitImage, IsAside, IsCopied, IsMade};

use crate::addresses::Addresses;
use crate::placement::TEXT;
use byteorder::{ByteOrder, LittleEndian};
use elf_file::{FIRST_ADDRESS, RelocKind};
use std::alloc::{AllocError, Global};

// The word that a relocation stores: S + A, or S + A - P.
fn stored(kind: RelocKind, address: u32, addend: u32, place: u32) -> u32
    ensures { result ≡ stored kind address addend place }
{
    match kind {
        RelocKind::Abs => address.wrapping_add(addend),
        RelocKind::Rel => address.wrapping_add(addend).wrapping_sub(place),
    }
}

// The word at a place of a text.
fn word_at(text: &[u8], at: usize) -> u32
    requires { at + 4 ≤ length text.now }
    ensures { result ≡ the_word_at text.now at }
{
    u32::from_le_bytes([text[at], text[at + 1], text[at + 2], text[at + 3]])
}

// Stores a word.
fn put_word(code: &mut [u8], at: usize, word: u32)
    requires { at + 4 ≤ length code.old }
    ensures there { take 4 (drop at code.new) ≡ word_bytes word }
    ensures length { length code.new ≡ length code.old }
    ensures others { (k : ℕ) → IsAside at k → get_or code.new k 0 ≡ get_or code.old k 0 }
{
    LittleEndian::write_u32(&mut code[at..], word);
}

// Stores the word of a relocation. Its addend is the word in the object.
fn relocate(code: &mut [u8], addresses: &Addresses<'_>, number: u32, index: u64)
    requires fit { FitImage addresses.now }
    requires object { number < length addresses.now }
    requires reloc { index < length (object_at addresses.now number).relocs }
    requires answered { AreAnswered addresses.now }
    requires inside { offset (text_address addresses.now number) + (text_of (object_at addresses.now number)).size ≤ length code.old }
    ensures there { IsRelocated addresses.now code.new number (reloc_of (object_at addresses.now number) index) }
    ensures length { length code.new ≡ length code.old }
    ensures others { (k : ℕ) → IsAside (offset (text_address addresses.now number) + (reloc_of (object_at addresses.now number) index).offset) k → get_or code.new k 0 ≡ get_or code.old k 0 }
{
    let view = addresses.object(number);
    let reloc = view.reloc(index);
    let text = addresses.section(number, TEXT);
    let addend = word_at(view.section_bytes(TEXT), reloc.offset as usize);
    let place = text + reloc.offset;
    let address = addresses.symbol(number, reloc.symbol);
    let word = stored(reloc.kind, address, addend, place);
    put_word(code, (place - FIRST_ADDRESS) as usize, word);
}

// Relocates the text of an object, which stands at its place as it is in the object.
fn relocate_text(code: &mut [u8], addresses: &Addresses<'_>, number: u32)
    requires fit { FitImage addresses.now }
    requires object { number < length addresses.now }
    requires answered { AreAnswered addresses.now }
    requires copied { IsCopied addresses.now number code.old }
    ensures placed { IsPlaced addresses.now code.new number }
    ensures length { length code.new ≡ length code.old }
    ensures before { (k : ℕ) → k < offset (text_address addresses.now number) → get_or code.new k 0 ≡ get_or code.old k 0 }
{
    for index in 0..addresses.object(number).relocs() {
        relocate(code, addresses, number, index);
    }
}

// Appends so many zeros.
fn push_zeros(code: &mut Vec<u8>, count: u32) -> Result<(), AllocError>
    ensures { OnOk result (code.new.items ≡ code.old.items ++ replicate count 0) }
{
    for _ in 0..count {
        code.push(0)?;
    }
    Ok(())
}

// Appends the text of an object at its place, and relocates it. The texts of the objects before it stand in the code.
fn push_text(code: &mut Vec<u8>, addresses: &Addresses<'_>, number: u32) -> Result<(), AllocError>
    requires fit { FitImage addresses.now }
    requires object { number < length addresses.now }
    requires answered { AreAnswered addresses.now }
    requires made { IsMade addresses.now number code.old.items }
    ensures { OnOk result (IsMade addresses.now (number + 1) code.new.items) }
{
    let gap = addresses.section(number, TEXT) - FIRST_ADDRESS - code.len() as u32;
    push_zeros(code, gap)?;
    code.extend_from_slice(addresses.object(number).section_bytes(TEXT))?;
    relocate_text(code.as_mut_slice(), addresses, number);
    Ok(())
}

/// The code of an image: the texts of the objects, each at its place, with zeros between them, and all words relocated.
/// The time is linear in the texts and the relocations, but for the look-ups of names.
pub(crate) fn code(
    alloc: Global,
    addresses: &Addresses<'_>,
    size: usize,
) -> Result<Vec<u8>, AllocError>
    requires { AreAnswered addresses.now }
    ensures { IfOk result (λ code. IsMade addresses.now (length addresses.now) code.items) }
{
    let mut code = Vec::with_capacity(alloc, size)?;
    for number in 0..addresses.len() {
        push_text(&mut code, addresses, number)?;
    }
    Ok(code)
}
