//! The bytes of one instruction.

ghost use Rattle.std.specs.Prelude.{◌≡◌, ℕ, ◌+◌, ◌<◌, ◌≤◌, List, [], ◌∷◌, ◌++◌, length, take, slice_index};
ghost use Rattle.cc_base.specs.Words.{word_bytes};

use std::marker::Model;

/// The bytes of an instruction, at most 11. Contracts see the list of them.
#[derive(Drop)]
pub struct Code {
    bytes: [u8; 11],
    count: usize,
}

impl Model for Code {
    ghost Value = { List ℕ };

    ghost view = { λ code. take code.count code.bytes };

    ghost invariant = { λ code. code.count ≤ 11 };
}

impl Code {
    /// No bytes.
    pub(crate) fn new() -> Self
        ensures { result ≡ [] }
    {
        Code {
            bytes: [0; 11],
            count: 0,
        }
    }

    /// How many bytes there are.
    pub fn len(&self) -> usize
        ensures { result ≡ length self.now }
    {
        self.count
    }

    /// The byte of this number, counted from 0.
    pub fn at(&self, index: usize) -> u8
        requires { index < length self.now }
        ensures { result ≡ slice_index self.now index }
    {
        self.bytes[index]
    }

    /// All bytes, in order.
    pub fn as_slice(&self) -> &[u8]
        ensures { result.now ≡ self.now }
    {
        &self.bytes[..self.count]
    }

    /// Appends a byte.
    pub(crate) fn push(&mut self, byte: u8)
        requires { length self.old < 11 }
        ensures { self.new ≡ self.old ++ byte ∷ [] }
    {
        self.bytes[self.count] = byte;
        self.count += 1;
    }

    /// Appends four bytes, the lowest first.
    pub(crate) fn push_word(&mut self, word: u32)
        requires { length self.old + 4 ≤ 11 }
        ensures { self.new ≡ self.old ++ word_bytes word }
    {
        let [a, b, c, d] = word.to_le_bytes();
        self.push(a);
        self.push(b);
        self.push(c);
        self.push(d);
    }
}
