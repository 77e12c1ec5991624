// The machine and its step.
mod executing;
mod operands;

ghost use Rattle.std.specs.Prelude.{◌≡◌, ◌≢◌, ◌+◌, ◌-◌, ◌%◌, ◌^◌, ◌<◌, ◌≤◌, [], ◌∷◌, ◌++◌, length, true, false, IsTrue, ◌↔◌, IfOk, OnOk, OnErr, OnSome, IfNone, Some, None, option_map};
ghost use Rattle.i386_machine.specs.Machine.{started, stack_region, filled, register, with_register};
ghost use Rattle.i386_machine.specs.Pending.{doing_of, Keeps, HasPlace, runs, is_read_call, is_system_call};
ghost use Rattle.i386_machine.specs.Regions.{shapes, ApartFrom, Disjoint, writable, byte_at};
ghost use Rattle.i386_machine.specs.Turns.{StandsAt};
ghost use Rattle.i386_machine.specs.Step.{Asks, Gives, Ends, Sticks, doing, effect, system_call, answered, stepped, step};

use crate::event::{Cause, Event, RunEnd, Standing};
use crate::memory::Memory;
use i386_arith::Flags;
use i386_code::{Decoded, Instr, Reg};
use std::alloc::{AllocError, Global};
use std::marker::Model;

/// A machine: regions of memory, eight registers, the address of the next instruction, the flags, and whether it runs.
#[derive(Drop)]
pub struct Machine {
    memory: Memory,
    // by their numbers
    registers: [u32; 8],
    eip: u32,
    // None: they are unknown
    flags: Option<Flags>,
    standing: Standing,
}

impl Model for Machine {
    ghost use Rattle.i386_machine.specs.Machine.{State};

    ghost Value = { State };

    ghost view = { λ m. record { regions = m.memory; registers = m.registers; eip = m.eip; flags = m.flags; standing = m.standing } };
}

/// What is left to do of a step, after the machine has done what it can without the outside.
#[derive(Clone, Copy)]
pub(crate) enum Pending {
    /// Nothing: the step is done.
    Nothing,
    /// To take the next byte of the input.
    Byte,
    /// To emit this byte.
    Give(u8),
    /// To end with this status.
    End(u8),
    /// To stick, since there is no step.
    Stick(Cause),
}

/// Whether an instruction is `int 0x80`.
fn is_system_call(instr: &Instr) -> bool
    ensures { result ≡ is_system_call instr.now }
{
    match instr {
        Instr::Interrupt { number } => *number == 0x80,
        _ => false,
    }
}

impl Machine {
    /// A machine that is about to run from an address, with a zeroed stack of so many bytes as its one region. It
    /// answers an error only for want of memory.
    pub fn new(alloc: Global, entry: u32, stack: u32) -> Result<Machine, AllocError>
        requires pages { stack % 4096 ≡ 0 }
        requires low { 4096 ≤ stack }
        requires high { stack ≤ 67108864 }
        ensures started { IfOk result (λ m. m ≡ started entry (stack_region stack ∷ [])) }
        ensures shape { IfOk result (λ m. shapes m.regions ≡ record { base = 3221225472 - stack; size = stack; writable = true; executable = false } ∷ []) }
    {
        Ok(Machine {
            memory: Memory::new(alloc, stack)?,
            registers: [0, 0, 0, 0, 0xBFFF_FFF0, 0, 0, 0],
            eip: entry,
            flags: None,
            standing: Standing::Running,
        })
    }

    /// Adds a region that begins with these bytes and is zero after them. Where there is no memory for it nothing
    /// changes.
    pub fn add_region(
        &mut self,
        base: u32,
        bytes: &[u8],
        size: u32,
        writable: bool,
        executable: bool,
    ) -> Result<(), AllocError>
        requires some { 0 < size }
        requires whole { length bytes.now ≤ size }
        requires ends { base + size ≤ 2 ^ 32 }
        requires apart { ApartFrom (record { base = base; size = size; writable = writable; executable = executable }) (shapes self.old.regions) }
        ensures ok { OnOk result (self.new ≡ record self.old { regions = self.old.regions ++ filled base bytes.now size writable executable ∷ [] }) }
        ensures shape { OnOk result (shapes self.new.regions ≡ shapes self.old.regions ++ record { base = base; size = size; writable = writable; executable = executable } ∷ []) }
        ensures err { OnErr result (self.new ≡ self.old) }
    {
        self.memory
            .add_region(base, bytes, size, writable, executable)?;
        Ok(())
    }

    /// The address of the next instruction.
    pub fn eip(&self) -> u32
        ensures { result ≡ self.now.eip }
    {
        self.eip
    }

    /// The word in a register.
    pub fn register(&self, reg: Reg) -> u32
        ensures { result ≡ register self.now reg }
    {
        self.registers[usize::from(reg.number())]
    }

    /// The byte at an address: None exactly outside all regions.
    pub fn byte_at(&self, address: u32) -> Option<u8>
        ensures { result ≡ byte_at self.now.regions address }
    {
        self.memory.byte_at(address)
    }

    /// A law of every machine: no address is in two of its regions. It does nothing.
    pub fn has_regions_apart(&self)
        ensures { Disjoint (shapes self.now.regions) }
    {
        self.memory.has_regions_apart();
    }

    /// Whether the next instruction is a read call that has a step.
    pub fn wants_byte(&self) -> bool
        ensures { IsTrue result ↔ (doing self.now ≡ Asks) }
    {
        if !self.is_running() {
            return false;
        }
        let Some(found) = self.memory.peek_instruction(self.eip) else {
            return false;
        };
        let Decoded::Is(instr, _) = found else {
            return false;
        };
        is_system_call(&instr) && self.is_read_call()
    }

    fn is_running(&self) -> bool
        ensures { result ≡ runs self.now.standing }
    {
        match self.standing {
            Standing::Running => true,
            Standing::Ended(_) => false,
            Standing::Stuck(_) => false,
        }
    }

    // Whether a system call would be a read of one byte from file 0 that has a place.
    fn is_read_call(&self) -> bool
        ensures { result ≡ is_read_call self.now }
    {
        let address = self.register(Reg::Ecx);
        self.register(Reg::Eax) == 3
            && self.register(Reg::Ebx) == 0
            && self.register(Reg::Edx) == 1
            && self.memory.has_room(address)
    }

    fn system_call(&mut self) -> Pending
        ensures does { system_call self.old ≡ doing_of result self.new }
        ensures kept { Keeps result self.old self.new }
        ensures place { HasPlace result self.old }
    {
        let call = self.register(Reg::Eax);
        let file = self.register(Reg::Ebx);
        let count = self.register(Reg::Edx);
        let address = self.register(Reg::Ecx);
        if call == 1 {
            return Pending::End((file % 256) as u8);
        }
        if call == 3 && file == 0 && count == 1 {
            if !self.memory.is_writable(address) {
                return Pending::Stick(Cause::Access { address });
            }
            return Pending::Byte;
        }
        if call == 4 && file == 1 && count == 1 {
            let Some(byte) = self.memory.load_byte(address) else {
                return Pending::Stick(Cause::Access { address });
            };
            return Pending::Give(byte);
        }
        Pending::Stick(Cause::System)
    }

    // What an instruction does, where eip is past it already. The machine is unchanged where it does not stay inside.
    #[inline(never)]
    fn execute(&mut self, instr: &Instr) -> Pending
        ensures does { effect instr.now self.old ≡ doing_of result self.new }
        ensures kept { Keeps result self.old self.new }
        ensures place { HasPlace result self.old }
    {
        if is_system_call(instr) {
            return self.system_call();
        }
        match self.compute(instr) {
            Ok(()) => Pending::Nothing,
            Err(cause) => Pending::Stick(cause),
        }
    }

    // Does the step as far as the machine alone can: an instruction that stays inside is done, and for the others
    // the machine is unchanged.
    pub(crate) fn advance(&mut self) -> Pending
        ensures does { doing self.old ≡ doing_of result self.new }
        ensures kept { Keeps result self.old self.new }
        ensures place { HasPlace result self.old }
    {
        match self.standing {
            Standing::Running => {}
            Standing::Ended(status) => return Pending::End(status),
            Standing::Stuck(cause) => return Pending::Stick(cause),
        }
        let start = self.eip;
        let Some(found) = self.memory.instruction_at(start) else {
            return Pending::Stick(Cause::Fetch);
        };
        let Decoded::Is(instr, size) = found else {
            return Pending::Stick(Cause::Decode);
        };
        self.eip = start.wrapping_add(u32::from(size));
        let pending = self.execute(&instr);
        if !matches!(pending, Pending::Nothing) {
            self.eip = start;
        }
        pending
    }

    // A system call has this answer, in eax.
    fn answer(&mut self, word: u32)
        ensures { self.new ≡ answered word self.old }
    {
        self.set(Reg::Eax, word);
        self.eip = self.eip.wrapping_add(2);
    }

    // The read call has the next byte of the input, or finds its end.
    pub(crate) fn take(&mut self, next: Option<u8>) -> Event
        requires { writable (shapes self.old.regions) (register self.old Reg.Ecx) 1 ≡ true }
        ensures { record { event = result; after = self.new } ≡ stepped Asks self.old next }
    {
        let Some(byte) = next else {
            self.answer(0);
            return Event::AtEnd;
        };
        let address = self.register(Reg::Ecx);
        let _stored = self.memory.store_byte(address, byte);
        self.answer(1);
        Event::Took
    }

    // The byte of the write call was emitted.
    pub(crate) fn gave(&mut self, byte: u8) -> Event
        ensures { record { event = result; after = self.new } ≡ stepped (Gives byte) self.old None }
    {
        self.answer(1);
        Event::Gave(byte)
    }

    pub(crate) fn end(&mut self, status: u8) -> Event
        ensures { record { event = result; after = self.new } ≡ stepped (Ends status) self.old None }
    {
        self.standing = Standing::Ended(status);
        Event::Ended(status)
    }

    pub(crate) fn stick(&mut self, cause: Cause) -> Event
        ensures { record { event = result; after = self.new } ≡ stepped (Sticks cause) self.old None }
    {
        self.standing = Standing::Stuck(cause);
        Event::Stuck(cause)
    }

    // How the machine stands at the end of a run.
    pub(crate) fn end_now(&self) -> RunEnd
        ensures { StandsAt self.now result }
    {
        match self.standing {
            Standing::Running => RunEnd::Spent,
            Standing::Ended(status) => RunEnd::Ended(status),
            Standing::Stuck(cause) => RunEnd::Stuck {
                eip: self.eip,
                cause,
            },
        }
    }

    /// One step. The next byte of the input matters only where a byte is wanted.
    pub fn step(&mut self, next: Option<u8>) -> Event
        ensures step { record { event = result; after = self.new } ≡ step self.old next }
        ensures shape { shapes self.new.regions ≡ shapes self.old.regions }
        ensures over { self.old.standing ≢ Standing.Running → self.new ≡ self.old }
    {
        match self.advance() {
            Pending::Nothing => Event::On,
            Pending::Byte => self.take(next),
            Pending::Give(byte) => self.gave(byte),
            Pending::End(status) => self.end(status),
            Pending::Stick(cause) => self.stick(cause),
        }
    }
}
