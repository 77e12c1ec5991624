// Memory in disjoint regions.
ghost use Rattle.std.specs.Prelude.{◌≡◌, ℕ, ◌+◌, ◌-◌, ◌^◌, ◌<◌, ◌≤◌, [], ◌∷◌, ◌++◌, length, set, true, false, MatchOption, slice_index, IfOk, OnOk, OnErr, Some, None, if◌then◌else◌, option_map};
ghost use Rattle.cc_base.specs.Words.{join, byte_of};
ghost use Rattle.i386_code.specs.Reading.{decoded};
ghost use Rattle.i386_machine.specs.Machine.{filled, stack_region};
ghost use Rattle.i386_machine.specs.Pieces.{region_of, HasNone, HasAt};
ghost use Rattle.i386_machine.specs.Regions.{shapes, ApartFrom, Disjoint, shape_of, spans, writable, word_at, held_word_at, byte_at, store_word, store_byte, fetch, zeros};

use crate::known::{Known, SLOTS, keep, known_at, no_slots};
use i386_code::{Decoded, decode};
use std::alloc::{AllocError, Global};
use std::marker::Model;

/// A range of addresses, and what stands there.
#[derive(Drop)]
struct Piece {
    base: u32,
    bytes: Vec<u8>,
    writable: bool,
    executable: bool,
}

/// The memory of a machine.
#[derive(Drop)]
pub(crate) struct Memory {
    pieces: Vec<Piece>,
    // the place of the piece that had the last data: tried first
    last_data: usize,
    // what was decoded
    slots: Vec<Option<Known>>,
}

impl Model for Memory {
    ghost use Rattle.std.specs.Prelude.{List, map};
    ghost use Rattle.i386_machine.specs.Regions.{Region};

    ghost Value = { List Region };

    ghost use Rattle.i386_machine.specs.Pieces.{region_of, IsMemory};

    ghost view = { λ s. map region_of s.pieces.items };

    ghost invariant = { IsMemory };
}

/// The word of four bytes.
fn word_in(bytes: &[u8], at: usize) -> u32
    requires { at + 4 ≤ length bytes.now }
    ensures { result ≡ join (slice_index bytes.now at) (slice_index bytes.now (at + 1)) (slice_index bytes.now (at + 2)) (slice_index bytes.now (at + 3)) }
{
    u32::from_le_bytes([bytes[at], bytes[at + 1], bytes[at + 2], bytes[at + 3]])
}

/// Writes the four bytes of a word.
fn put_word(bytes: &mut [u8], at: usize, word: u32)
    requires { at + 4 ≤ length bytes.old }
    ensures { bytes.new ≡ set (set (set (set bytes.old at (byte_of word 0)) (at + 1) (byte_of word 1)) (at + 2) (byte_of word 2)) (at + 3) (byte_of word 3) }
{
    let raw = word.to_le_bytes();
    bytes[at] = raw[0];
    bytes[at + 1] = raw[1];
    bytes[at + 2] = raw[2];
    bytes[at + 3] = raw[3];
}

/// Whether the piece has all of some addresses.
fn has(piece: &Piece, at: u32, size: u32) -> bool
    ensures { result ≡ spans (shape_of (region_of piece.now)) at size }
{
    let bytes = piece.bytes.as_slice();
    piece.base <= at && (at - piece.base) as usize + size as usize <= bytes.len()
}

/// The piece that has all of some addresses.
fn find(pieces: &[Piece], at: u32, size: u32) -> Option<usize>
    ensures { MatchOption result (HasNone pieces.now at size) (λ i. HasAt pieces.now at size i) }
{
    for (i, piece) in pieces.iter().enumerate() {
        if has(piece, at, size) {
            return Some(i);
        }
    }
    None
}

/// The piece that has all of some addresses, tried first at the last place.
fn locate(pieces: &[Piece], last: usize, at: u32, size: u32) -> Option<usize>
    requires { last < length pieces.now }
    ensures { MatchOption result (HasNone pieces.now at size) (λ i. HasAt pieces.now at size i) }
{
    if has(&pieces[last], at, size) {
        Some(last)
    } else {
        find(pieces, at, size)
    }
}

/// So many zeros.
#[tactic(auto, unfolding(crate::specs::Regions::zeros))]
fn zeroed(alloc: Global, size: u32) -> Result<Vec<u8>, AllocError>
    ensures { IfOk result (λ v. v.items ≡ zeros size) }
{
    vec![in alloc; 0; size as usize]
}

/// The bytes, and zeros up to a size.
#[tactic(auto, unfolding(crate::specs::Regions::zeros))]
fn padded(alloc: Global, bytes: &[u8], size: u32) -> Result<Vec<u8>, AllocError>
    requires { length bytes.now ≤ size }
    ensures { IfOk result (λ v. v.items ≡ bytes.now ++ zeros (size - length bytes.now)) }
{
    let mut held = Vec::with_capacity(alloc, size as usize)?;
    held.extend_from_slice(bytes)?;
    held.resize(size as usize, 0)?;
    Ok(held)
}

impl Memory {
    /// A zeroed stack of so many bytes, which ends at 0xC0000000.
    pub(crate) fn new(alloc: Global, stack: u32) -> Result<Memory, AllocError>
        requires { stack ≤ 67108864 }
        ensures stack { IfOk result (λ m. m ≡ stack_region stack ∷ []) }
        ensures shape { IfOk result (λ m. shapes m ≡ record { base = 3221225472 - stack; size = stack; writable = true; executable = false } ∷ []) }
    {
        let mut pieces = Vec::new(alloc);
        let bytes = zeroed(alloc, stack)?;
        pieces.push(Piece {
            base: 0xC000_0000 - stack,
            bytes,
            writable: true,
            executable: false,
        })?;
        Ok(Memory {
            pieces,
            last_data: 0,
            slots: no_slots(alloc, SLOTS)?,
        })
    }

    /// One more region, which begins with these bytes, is zero after them and has no address in common with the others.
    pub(crate) fn add_region(
        &mut self,
        base: u32,
        bytes: &[u8],
        size: u32,
        writable: bool,
        executable: bool,
    ) -> Result<(), AllocError>
        requires whole { length bytes.now ≤ size }
        requires ends { base + size ≤ 2 ^ 32 }
        requires apart { ApartFrom (record { base = base; size = size; writable = writable; executable = executable }) (shapes self.old) }
        ensures ok { OnOk result (self.new ≡ self.old ++ filled base bytes.now size writable executable ∷ []) }
        ensures shape { OnOk result (shapes self.new ≡ shapes self.old ++ record { base = base; size = size; writable = writable; executable = executable } ∷ []) }
        ensures err { OnErr result (self.new ≡ self.old) }
    {
        let alloc = *self.pieces.allocator();
        let held = padded(alloc, bytes, size)?;
        self.pieces.push(Piece {
            base,
            bytes: held,
            writable,
            executable,
        })?;
        Ok(())
    }

    /// A law of every memory: no address is in two of its regions. It does nothing.
    pub(crate) fn has_regions_apart(&self)
        ensures { Disjoint (shapes self.now) }
    {
        let _ = &self.last_data;
    }

    /// The same as `load_byte`, where the machine is only looked at.
    pub(crate) fn byte_at(&self, at: u32) -> Option<u8>
        ensures { result ≡ byte_at self.now at }
    {
        let Some(index) = locate(&self.pieces, self.last_data, at, 1) else {
            return None;
        };
        let piece = &self.pieces[index];
        Some(piece.bytes[(at - piece.base) as usize])
    }

    /// Whether a byte can be stored at an address.
    pub(crate) fn has_room(&self, at: u32) -> bool
        ensures { result ≡ writable (shapes self.now) at 1 }
    {
        let Some(index) = locate(&self.pieces, self.last_data, at, 1) else {
            return false;
        };
        self.pieces[index].writable
    }

    /// What the bytes at an address in code begin with. None: the address is not in code.
    pub(crate) fn peek_instruction(&self, at: u32) -> Option<Decoded>
        ensures { result ≡ option_map decoded (fetch self.now at) }
    {
        let Some(index) = find(&self.pieces, at, 1) else {
            return None;
        };
        let piece = &self.pieces[index];
        if !piece.executable {
            return None;
        }
        Some(decode(&piece.bytes[(at - piece.base) as usize..]))
    }

    /// The word at an address, where one region has its four bytes.
    pub(crate) fn load_word(&mut self, at: u32) -> Option<u32>
        ensures word { result ≡ word_at self.old at }
        ensures same { self.new ≡ self.old }
    {
        let Some(index) = locate(&self.pieces, self.last_data, at, 4) else {
            return None;
        };
        self.last_data = index;
        let piece = &self.pieces[index];
        Some(word_in(&piece.bytes, (at - piece.base) as usize))
    }

    /// The word at an address, where one writable region has its four bytes.
    pub(crate) fn held_word(&mut self, at: u32) -> Option<u32>
        ensures word { result ≡ held_word_at self.old at }
        ensures same { self.new ≡ self.old }
    {
        let Some(index) = locate(&self.pieces, self.last_data, at, 4) else {
            return None;
        };
        self.last_data = index;
        let piece = &self.pieces[index];
        if !piece.writable {
            return None;
        }
        Some(word_in(&piece.bytes, (at - piece.base) as usize))
    }

    /// The byte at an address, where a region has it.
    pub(crate) fn load_byte(&mut self, at: u32) -> Option<u8>
        ensures byte { result ≡ byte_at self.old at }
        ensures same { self.new ≡ self.old }
    {
        let Some(index) = locate(&self.pieces, self.last_data, at, 1) else {
            return None;
        };
        self.last_data = index;
        let piece = &self.pieces[index];
        Some(piece.bytes[(at - piece.base) as usize])
    }

    /// Whether a byte can be stored at an address. The next access is tried there first.
    pub(crate) fn is_writable(&mut self, at: u32) -> bool
        ensures right { result ≡ writable (shapes self.old) at 1 }
        ensures same { self.new ≡ self.old }
    {
        let Some(index) = locate(&self.pieces, self.last_data, at, 1) else {
            return false;
        };
        self.last_data = index;
        self.pieces[index].writable
    }

    /// Stores a word, where one writable region has its four bytes; else it answers false and changes nothing.
    pub(crate) fn store_word(&mut self, at: u32, word: u32) -> bool
        ensures stored { store_word self.old at word ≡ (if result then Some self.new else None) }
        ensures same { result ≡ false → self.new ≡ self.old }
    {
        let Some(index) = locate(&self.pieces, self.last_data, at, 4) else {
            return false;
        };
        self.last_data = index;
        let piece = &mut self.pieces[index];
        if !piece.writable {
            return false;
        }
        let offset = (at - piece.base) as usize;
        put_word(&mut piece.bytes, offset, word);
        true
    }

    /// Stores a byte likewise.
    pub(crate) fn store_byte(&mut self, at: u32, byte: u8) -> bool
        ensures stored { store_byte self.old at byte ≡ (if result then Some self.new else None) }
        ensures same { result ≡ false → self.new ≡ self.old }
    {
        let Some(index) = locate(&self.pieces, self.last_data, at, 1) else {
            return false;
        };
        self.last_data = index;
        let piece = &mut self.pieces[index];
        if !piece.writable {
            return false;
        }
        let offset = (at - piece.base) as usize;
        piece.bytes[offset] = byte;
        true
    }

    // What is found there is kept for the next time, where no step can change it.
    #[inline(never)]
    fn decode_at(&mut self, at: u32) -> Option<Decoded>
        ensures instruction { result ≡ option_map decoded (fetch self.old at) }
        ensures same { self.new ≡ self.old }
    {
        let found = self.peek_instruction(at)?;
        if !self.has_room(at) {
            keep(&mut self.slots, at, found);
        }
        Some(found)
    }

    /// The same as `peek_instruction`, and faster where an instruction was found at this address before.
    pub(crate) fn instruction_at(&mut self, at: u32) -> Option<Decoded>
        ensures instruction { result ≡ option_map decoded (fetch self.old at) }
        ensures same { self.new ≡ self.old }
    {
        match known_at(&self.slots, at) {
            Some(found) => Some(found),
            None => self.decode_at(at),
        }
    }
}
