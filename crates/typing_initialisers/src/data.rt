// What an object begins with.
ghost use Rattle.std.specs.Prelude.{◌≡◌, ◌++◌, ◌∷◌, [], OnOk};
ghost use Rattle.typing_initialisers.specs.Data.{Bytes as SomeBytes, Pointer as SomePointer, part_at, padded, nothing, with_part};

use crate::constant::Constant;
use crate::constant_pointer::Address;
use cc_base::{Bytes, Sequence};
use std::alloc::{AllocError, Global};

/// A word of an object that is a pointer at first.
#[derive(Clone, Copy, Debug, PartialEq, Eq)]
pub struct Pointed {
    /// Where it stands in the object, in bytes.
    pub offset: u32,
    pub to: Address,
}

/// What an object begins with: its first bytes, and its words that are pointers at first, in their order. All bytes behind
/// these are zero, and so are those of the words.
#[derive(Drop)]
pub struct Data {
    pub bytes: Bytes,
    pub words: Sequence<Pointed>,
}

// Appends zeros up to a place.
#[tactic(auto, using(crate::proofs::Padding::one_more, crate::proofs::Padding::no_more))]
fn pad(bytes: &mut Bytes, at: usize) -> Result<(), AllocError>
    ensures { OnOk result (bytes.new ≡ padded at bytes.old) }
{
    'zeros: while bytes.len() < at {
        bytes.push(0)?;
    }
    Ok(())
}

impl Data {
    /// Zeros alone. It takes no memory.
    pub fn new(alloc: Global) -> Data
        ensures { result ≡ nothing }
    {
        Data {
            bytes: Bytes::new(alloc),
            words: Sequence::new(alloc),
        }
    }

    /// Adds bytes at a place behind what was added before.
    pub(crate) fn put_bytes(&mut self, at: usize, bytes: &[u8]) -> Result<(), AllocError>
        ensures { OnOk result (self.new ≡ with_part self.old (SomeBytes at bytes.now)) }
    {
        pad(&mut self.bytes, at)?;
        self.bytes.extend(bytes)
    }

    /// Adds bytes and a zero behind them, likewise.
    pub(crate) fn put_closed(&mut self, at: usize, bytes: &[u8]) -> Result<(), AllocError>
        ensures { OnOk result (self.new ≡ with_part self.old (SomeBytes at (bytes.now ++ 0 ∷ []))) }
    {
        pad(&mut self.bytes, at)?;
        self.bytes.extend(bytes)?;
        self.bytes.push(0)
    }

    // Adds a pointer at a place behind what was added before.
    fn put_pointer(&mut self, at: usize, to: Address) -> Result<(), AllocError>
        ensures { OnOk result (self.new ≡ with_part self.old (SomePointer at to)) }
    {
        let Ok(offset) = u32::try_from(at) else {
            return Err(AllocError);
        };
        pad(&mut self.bytes, at)?;
        self.bytes.extend(&[0, 0, 0, 0])?;
        self.words.push(Pointed { offset, to })
    }

    /// Adds a constant at a place behind what was added before.
    pub(crate) fn put(&mut self, at: usize, constant: Constant) -> Result<(), AllocError>
        ensures { OnOk result (self.new ≡ with_part self.old (part_at at constant)) }
    {
        match constant {
            Constant::Byte(byte) => self.put_bytes(at, &[byte]),
            Constant::Word(word) => self.put_bytes(at, &word.to_le_bytes()),
            Constant::Pointer(to) => self.put_pointer(at, to),
        }
    }
}
