// What a live block holds.
ghost use Rattle.std.specs.Prelude.{◌≡◌, ◌+◌, ◌≤◌, ◌<◌, length, true, false, Some, None, if◌then◌else◌, IfOk, get_or, set};
ghost use Rattle.cc_base.specs.Words.{byte_of};
ghost use Rattle.block_mem.specs.Blocks.{unset_block};
ghost use Rattle.block_mem.specs.Access.{fits, read, read_in, write, written_in, put_four};

use crate::access::{signed_of, unsigned_of};
use crate::quads::{Quad, Quads};
use crate::value::{BlockName, Byte, Value, Width};
use std::alloc::{AllocError, Global};
use std::marker::Model;

/// The bytes of a live block, and whether it is writable.
#[derive(Drop)]
pub(crate) struct Cells {
    quads: Quads,
    size: u32,
    writable: bool,
}

impl Model for Cells {
    ghost use Rattle.std.specs.Prelude.{◌*◌, ◌≤◌, length};
    ghost use Rattle.block_mem.specs.Blocks.{Block};
    ghost use Rattle.block_mem.specs.Codes.{coded_block};
    ghost use Rattle.block_mem.specs.Quads.{bytes_of};

    ghost Value = { Block };

    ghost coded = { coded_block };

    ghost view = { λ c. record { bytes = bytes_of c.quads c.size; writable = c.writable } };

    ghost invariant = { λ c. c.size ≤ 4 * length c.quads };
}

fn part(block: BlockName, offset: u32, which: u8) -> Byte
    ensures { result ≡ Byte.Part block offset which }
{
    Byte::Part {
        block,
        offset,
        which,
    }
}

impl Cells {
    /// A block whose bytes are unset.
    pub(crate) fn new(alloc: Global, size: u32, writable: bool) -> Result<Cells, AllocError>
        ensures { IfOk result (λ k. k ≡ unset_block size writable) }
    {
        let quads = Quads::new(alloc, (size as usize + 3) / 4)?;
        Ok(Cells {
            quads,
            size,
            writable,
        })
    }

    /// Its size.
    pub(crate) fn len(&self) -> usize
        ensures { result ≡ length self.now.bytes }
    {
        self.size as usize
    }

    // Whether one byte at an offset lies inside.
    fn has_byte(&self, offset: u32) -> bool
        ensures { result ≡ fits Width.Unsigned8 self.now.bytes offset }
    {
        offset < self.size
    }

    // Whether four bytes at an offset lie inside, from a multiple of four on.
    fn has_word(&self, offset: u32) -> bool
        ensures { result ≡ fits Width.Word self.now.bytes offset }
    {
        offset as usize + 4 <= self.size as usize && offset % 4 == 0
    }

    fn byte_at(&self, offset: u32) -> Byte
        requires { offset < length self.now.bytes }
        ensures { result ≡ get_or self.now.bytes offset Byte.Unset }
    {
        self.quads
            .byte((offset / 4) as usize, (offset % 4) as usize)
    }

    fn word_at(&self, offset: u32) -> Option<Value>
        requires { fits Width.Word self.now.bytes offset ≡ true }
        ensures { result ≡ read Width.Word self.now.bytes offset }
    {
        self.quads.word((offset / 4) as usize)
    }

    fn pointer_at(&self, offset: u32) -> Option<Value>
        requires { fits Width.Pointer self.now.bytes offset ≡ true }
        ensures { result ≡ read Width.Pointer self.now.bytes offset }
    {
        self.quads.pointer((offset / 4) as usize)
    }

    /// The value at an offset, where it has one.
    pub(crate) fn read(&self, offset: u32, width: Width) -> Option<Value>
        ensures { result ≡ read_in self.now width offset }
    {
        match width {
            Width::Signed8 if self.has_byte(offset) => signed_of(self.byte_at(offset)),
            Width::Unsigned8 if self.has_byte(offset) => unsigned_of(self.byte_at(offset)),
            Width::Word if self.has_word(offset) => self.word_at(offset),
            Width::Pointer if self.has_word(offset) => self.pointer_at(offset),
            _ => None,
        }
    }

    /// Puts a byte at an offset, whether the block is writable or not.
    pub(crate) fn put(&mut self, offset: u32, byte: Byte)
        requires { offset < length self.old.bytes }
        ensures { self.new ≡ record self.old { bytes = set self.old.bytes offset byte } }
    {
        self.quads
            .put_byte((offset / 4) as usize, (offset % 4) as usize, byte);
    }

    // Puts the bytes of a word at an offset.
    fn put_word(&mut self, offset: u32, word: u32)
        requires { fits Width.Word self.old.bytes offset ≡ true }
        ensures { self.new ≡ record self.old { bytes = put_four self.old.bytes offset (Byte.Plain (byte_of word 0)) (Byte.Plain (byte_of word 1)) (Byte.Plain (byte_of word 2)) (Byte.Plain (byte_of word 3)) } }
    {
        let [a, b, c, d] = word.to_le_bytes();
        self.quads.put_plain((offset / 4) as usize, a, b, c, d);
    }

    // Puts the four parts of a pointer at an offset.
    fn put_pointer(&mut self, offset: u32, block: BlockName, place: u32)
        requires { fits Width.Pointer self.old.bytes offset ≡ true }
        ensures { self.new ≡ record self.old { bytes = put_four self.old.bytes offset (Byte.Part block place 0) (Byte.Part block place 1) (Byte.Part block place 2) (Byte.Part block place 3) } }
    {
        let quad = Quad {
            zero: part(block, place, 0),
            one: part(block, place, 1),
            two: part(block, place, 2),
            three: part(block, place, 3),
        };
        self.quads.put((offset / 4) as usize, quad);
    }

    /// Stores a value at an offset, where it can be; else it answers false and changes nothing.
    pub(crate) fn write(&mut self, offset: u32, width: Width, value: Value) -> bool
        ensures stored { (if result then Some self.new.bytes else None) ≡ written_in self.old width offset value }
        ensures rights { self.new.writable ≡ self.old.writable }
        ensures same { result ≡ false → self.new ≡ self.old }
    {
        if !self.writable {
            return false;
        }
        match (width, value) {
            (Width::Signed8 | Width::Unsigned8, Value::Int(word)) if self.has_byte(offset) => {
                self.put(offset, Byte::Plain((word % 256) as u8));
                true
            }
            (Width::Word, Value::Int(word)) if self.has_word(offset) => {
                self.put_word(offset, word);
                true
            }
            (Width::Pointer, Value::Int(0)) if self.has_word(offset) => {
                self.put_word(offset, 0);
                true
            }
            (
                Width::Pointer,
                Value::Ptr {
                    block,
                    offset: place,
                },
            ) if self.has_word(offset) => {
                self.put_pointer(offset, block, place);
                true
            }
            _ => false,
        }
    }
}
