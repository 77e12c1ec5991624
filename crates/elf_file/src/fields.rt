// What stands at a place of a file.
ghost use Rattle.std.specs.Prelude.{◌≡◌, ◌+◌, ◌==◌, ◌≤◌, length};
ghost use Rattle.std.specs.List.{position_or_len};
ghost use Rattle.elf_file.specs.Places.{word_at as the_word_at, half_at as the_half_at};
ghost use Rattle.elf_file.specs.Object.{kind_of, place_of, reloc_in, name_in, bytes_in};

use crate::parts::{RelocKind, RelocPart, SymbolKind, SymbolPlace};

/// SHN_ABS, the section number of a symbol that stands apart from all sections.
pub(crate) const ABSOLUTE: u16 = 0xfff1;

// The word at a place.
pub(crate) fn word_at(file: &[u8], at: usize) -> u32
    requires { at + 4 ≤ length file.now }
    ensures { result ≡ the_word_at file.now at }
{
    u32::from_le_bytes([file[at], file[at + 1], file[at + 2], file[at + 3]])
}

// The number of 16 bits at a place.
pub(crate) fn half_at(file: &[u8], at: usize) -> u16
    requires { at + 2 ≤ length file.now }
    ensures { result ≡ the_half_at file.now at }
{
    u16::from_le_bytes([file[at], file[at + 1]])
}

// The type of a symbol with this number. Numbers above 4 are no types.
pub(crate) fn symbol_kind(number: u8) -> SymbolKind
    ensures { result ≡ kind_of number }
{
    match number {
        0 => SymbolKind::NoType,
        1 => SymbolKind::Object,
        2 => SymbolKind::Func,
        3 => SymbolKind::Section,
        _ => SymbolKind::File,
    }
}

// The place of a symbol with this section number.
pub(crate) fn symbol_place(number: u16) -> SymbolPlace
    ensures { result ≡ place_of number }
{
    match number {
        0 => SymbolPlace::Undefined,
        ABSOLUTE => SymbolPlace::Absolute,
        section => SymbolPlace::At(u32::from(section)),
    }
}

// The relocation of an entry of the text's relocation table.
pub(crate) fn reloc_of_entry(entry: &[u8]) -> RelocPart
    requires { length entry.now ≡ 8 }
    ensures { result ≡ reloc_in entry.now }
{
    let info = word_at(entry, 4);
    RelocPart {
        section: 1,
        offset: word_at(entry, 0),
        symbol: info / 256,
        kind: if info % 256 == 1 {
            RelocKind::Abs
        } else {
            RelocKind::Rel
        },
    }
}

// So many bytes of a file from a place on.
pub(crate) fn slice_at(file: &[u8], at: u32, size: u32) -> &[u8]
    requires { at + size ≤ length file.now }
    ensures bytes { result.now ≡ bytes_in file.now at size }
    ensures len { length result.now ≡ size }
{
    &file[at as usize..][..size as usize]
}

// The name that begins at a place of a string table.
pub(crate) fn name_at(strings: &[u8], name: usize) -> &[u8]
    ensures { result.now ≡ name_in strings.now name }
{
    let rest = strings.get(name..).unwrap_or(&[]);
    &rest[..zero_or_end(rest)]
}

// How many bytes stand before the first zero.
#[tactic(auto, using(std::proofs::lemmas::List::Sums::position_or_len_is))]
fn zero_or_end(bytes: &[u8]) -> usize
    ensures place { result ≡ position_or_len (λ byte. byte == 0) bytes.now }
    ensures within { result ≤ length bytes.now }
{
    for (i, byte) in bytes.iter().enumerate() {
        if *byte == 0 {
            return i;
        }
    }
    bytes.len()
}
