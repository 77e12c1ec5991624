// Operands: where they are, and what is read and written there.
ghost use Rattle.std.specs.Prelude.{◌≡◌, ◌*◌, ◌%◌, ◌^◌, OnErr};
ghost use Rattle.i386_machine.specs.Machine.{with_register};
ghost use Rattle.i386_machine.specs.Operands.{base_word, index_word, address_of, place_of, word_in, held_in, byte_in, byte_room, with_word, with_byte};
ghost use Rattle.i386_machine.specs.Pending.{written};
ghost use Rattle.i386_machine.specs.Step.{with_flags};

use crate::event::Cause;
use crate::machine::Machine;
use crate::operand::Place;
use i386_arith::Flags;
use i386_code::{Address, Reg, Rm, Scaled};

/// A word times 2 to the power of a shift, modulo 2^32.
fn scaled(word: u32, shift: u8) -> u32
    ensures { result ≡ (word * 2 ^ shift) % 2 ^ 32 }
{
    match word.checked_shl(u32::from(shift)) {
        Some(scaled) => scaled,
        None => 0,
    }
}

impl Machine {
    pub(super) fn set(&mut self, reg: Reg, word: u32)
        ensures { self.new ≡ with_register self.old reg word }
    {
        self.registers[usize::from(reg.number())] = word;
    }

    fn base_word(&self, base: Option<Reg>) -> u32
        ensures { result ≡ base_word self.now base }
    {
        match base {
            Some(reg) => self.register(reg),
            None => 0,
        }
    }

    fn index_word(&self, index: Option<Scaled>) -> u32
        ensures { result ≡ index_word self.now index % 2 ^ 32 }
    {
        match index {
            Some(index) => scaled(self.register(index.register), index.shift),
            None => 0,
        }
    }

    pub(super) fn address(&self, address: &Address) -> u32
        ensures { result ≡ address_of self.now address.now }
    {
        let base = self.base_word(address.base);
        let index = self.index_word(address.index);
        base.wrapping_add(index).wrapping_add(address.disp)
    }

    pub(super) fn place(&self, operand: &Rm) -> Place
        ensures { result ≡ place_of self.now operand.now }
    {
        match operand {
            Rm::Reg(reg) => Place::Register(*reg),
            Rm::Mem(address) => Place::Memory(self.address(address)),
        }
    }

    // The word in a place.
    #[inline(always)]
    pub(super) fn word_in(&mut self, place: Place) -> Result<u32, Cause>
        ensures word { result ≡ word_in self.old place }
        ensures same { self.new ≡ self.old }
    {
        match place {
            Place::Register(reg) => Ok(self.register(reg)),
            Place::Memory(address) => match self.memory.load_word(address) {
                Some(word) => Ok(word),
                None => Err(Cause::Access { address }),
            },
        }
    }

    // The word in a place that is written too.
    #[inline(always)]
    pub(super) fn held_in(&mut self, place: Place) -> Result<u32, Cause>
        ensures word { result ≡ held_in self.old place }
        ensures same { self.new ≡ self.old }
    {
        match place {
            Place::Register(reg) => Ok(self.register(reg)),
            Place::Memory(address) => match self.memory.held_word(address) {
                Some(word) => Ok(word),
                None => Err(Cause::Access { address }),
            },
        }
    }

    // The byte in a place: of a register the low one.
    pub(super) fn byte_in(&mut self, place: Place) -> Result<u8, Cause>
        ensures byte { result ≡ byte_in self.old place }
        ensures same { self.new ≡ self.old }
    {
        match place {
            Place::Register(reg) => Ok((self.register(reg) % 256) as u8),
            Place::Memory(address) => match self.memory.load_byte(address) {
                Some(byte) => Ok(byte),
                None => Err(Cause::Access { address }),
            },
        }
    }

    // Whether a byte can be written in a place.
    pub(super) fn byte_room(&mut self, place: Place) -> Result<(), Cause>
        ensures room { result ≡ byte_room self.old place }
        ensures same { self.new ≡ self.old }
    {
        match place {
            Place::Register(_) => Ok(()),
            Place::Memory(address) => {
                if self.memory.is_writable(address) {
                    Ok(())
                } else {
                    Err(Cause::Access { address })
                }
            }
        }
    }

    // Writes a word in a place and sets the flags, or changes nothing.
    #[inline(always)]
    pub(super) fn put_word(
        &mut self,
        place: Place,
        word: u32,
        flags: Option<Flags>,
    ) -> Result<(), Cause>
        ensures does { with_word (with_flags self.old flags) place word ≡ written result self.new }
        ensures kept { OnErr result (self.new ≡ self.old) }
    {
        match place {
            Place::Register(reg) => self.set(reg, word),
            Place::Memory(address) => {
                if !self.memory.store_word(address, word) {
                    return Err(Cause::Access { address });
                }
            }
        }
        self.flags = flags;
        Ok(())
    }

    // Writes a byte in a place, of a register the low one, or changes nothing.
    pub(super) fn put_byte(&mut self, place: Place, byte: u8) -> Result<(), Cause>
        ensures does { with_byte self.old place byte ≡ written result self.new }
        ensures kept { OnErr result (self.new ≡ self.old) }
    {
        match place {
            Place::Register(reg) => {
                let old = self.register(reg);
                self.set(reg, old - old % 256 + u32::from(byte));
            }
            Place::Memory(address) => {
                if !self.memory.store_byte(address, byte) {
                    return Err(Cause::Access { address });
                }
            }
        }
        Ok(())
    }
}
