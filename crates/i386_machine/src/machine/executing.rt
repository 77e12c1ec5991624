// What the instructions do that stay inside the machine. Each function changes nothing where it answers an error.
ghost use Rattle.std.specs.Prelude.{◌≡◌, ◌+◌, ◌%◌, ◌^◌, ◌*◌, false, OnOk, OnErr};
ghost use Rattle.std.specs.Int.{w32, cast_unsigned};
ghost use Rattle.i386_machine.specs.Operands.{place_of, with_word};
ghost use Rattle.i386_machine.specs.Pending.{written, is_system_call};
ghost use Rattle.i386_machine.specs.Step.{Goes, goes, operates, only_tests, with_division, with_flags, jumped, pushed, popped, top_word, asked, effect};

use crate::event::Cause;
use crate::machine::Machine;
use crate::operand::Place;
use i386_arith::{Division, divide, divide_signed, holds, operate, shift};
use i386_code::{Address, AluOp, Cond, Instr, Reg, Rm, ShiftOp, sign_extended};

/// Whether an operation sets flags only.
fn only_tests(op: AluOp) -> bool
    ensures { result ≡ only_tests op }
{
    matches!(op, AluOp::Cmp | AluOp::Test)
}

impl Machine {
    #[inline(always)]
    fn store(&mut self, to: &Rm, word: u32) -> Result<(), Cause>
        ensures does { goes (with_word self.old (place_of self.old to.now) word) ≡ goes (written result self.new) }
        ensures kept { OnErr result (self.new ≡ self.old) }
    {
        let place = self.place(to);
        let flags = self.flags;
        self.put_word(place, word, flags)
    }

    fn store_byte(&mut self, to: &Rm, from: Reg) -> Result<(), Cause>
        ensures does { effect (Instr.StoreByte to.now from) self.old ≡ goes (written result self.new) }
        ensures kept { OnErr result (self.new ≡ self.old) }
    {
        let place = self.place(to);
        let byte = (self.register(from) % 256) as u8;
        self.put_byte(place, byte)
    }

    fn load(&mut self, to: Reg, from: &Rm) -> Result<(), Cause>
        ensures does { effect (Instr.Load to from.now) self.old ≡ goes (written result self.new) }
        ensures kept { OnErr result (self.new ≡ self.old) }
    {
        let place = self.place(from);
        let word = self.word_in(place)?;
        self.set(to, word);
        Ok(())
    }

    fn zero_byte(&mut self, to: Reg, from: &Rm) -> Result<(), Cause>
        ensures does { effect (Instr.ZeroByte to from.now) self.old ≡ goes (written result self.new) }
        ensures kept { OnErr result (self.new ≡ self.old) }
    {
        let place = self.place(from);
        let byte = self.byte_in(place)?;
        self.set(to, u32::from(byte));
        Ok(())
    }

    fn sign_byte(&mut self, to: Reg, from: &Rm) -> Result<(), Cause>
        ensures does { effect (Instr.SignByte to from.now) self.old ≡ goes (written result self.new) }
        ensures kept { OnErr result (self.new ≡ self.old) }
    {
        let place = self.place(from);
        let byte = self.byte_in(place)?;
        self.set(to, sign_extended(byte));
        Ok(())
    }

    fn lea(&mut self, to: Reg, from: &Address)
        ensures { effect (Instr.Lea to from.now) self.old ≡ Goes self.new }
    {
        let address = self.address(from);
        self.set(to, address);
    }

    #[inline(always)]
    fn operate(&mut self, op: AluOp, to: &Rm, second: u32) -> Result<(), Cause>
        ensures does { operates (only_tests op) op (place_of self.old to.now) second self.old ≡ goes (written result self.new) }
        ensures kept { OnErr result (self.new ≡ self.old) }
    {
        let place = self.place(to);
        if only_tests(op) {
            let first = self.word_in(place)?;
            self.flags = Some(operate(op, first, second).flags);
            return Ok(());
        }
        let first = self.held_in(place)?;
        let computed = operate(op, first, second);
        self.put_word(place, computed.word, Some(computed.flags))
    }

    fn multiply(&mut self, to: Reg, from: &Rm) -> Result<(), Cause>
        ensures does { effect (Instr.Mul to from.now) self.old ≡ goes (written result self.new) }
        ensures kept { OnErr result (self.new ≡ self.old) }
    {
        let place = self.place(from);
        let word = self.word_in(place)?;
        let product = self.register(to).wrapping_mul(word);
        self.set(to, product);
        self.flags = None;
        Ok(())
    }

    fn invert(&mut self, to: &Rm) -> Result<(), Cause>
        ensures does { effect (Instr.Not to.now) self.old ≡ goes (written result self.new) }
        ensures kept { OnErr result (self.new ≡ self.old) }
    {
        let place = self.place(to);
        let word = self.held_in(place)?;
        let flags = self.flags;
        self.put_word(place, 0xffff_ffff - word, flags)
    }

    fn negate(&mut self, to: &Rm) -> Result<(), Cause>
        ensures does { effect (Instr.Neg to.now) self.old ≡ goes (written result self.new) }
        ensures kept { OnErr result (self.new ≡ self.old) }
    {
        let place = self.place(to);
        let word = self.held_in(place)?;
        self.put_word(place, 0u32.wrapping_sub(word), None)
    }

    fn shift(&mut self, op: ShiftOp, to: &Rm) -> Result<(), Cause>
        ensures does { effect (Instr.Shift op to.now) self.old ≡ goes (written result self.new) }
        ensures kept { OnErr result (self.new ≡ self.old) }
    {
        let place = self.place(to);
        let word = self.held_in(place)?;
        let count = self.register(Reg::Ecx);
        self.put_word(place, shift(op, word, count), None)
    }

    // A quotient goes to eax and its remainder to edx.
    fn put_division(&mut self, division: Option<Division>) -> Result<(), Cause>
        ensures does { with_division division self.old ≡ goes (written result self.new) }
        ensures kept { OnErr result (self.new ≡ self.old) }
    {
        let Some(division) = division else {
            return Err(Cause::Divide);
        };
        self.flags = None;
        self.set(Reg::Eax, division.quotient);
        self.set(Reg::Edx, division.remainder);
        Ok(())
    }

    fn divide(&mut self, by: &Rm) -> Result<(), Cause>
        ensures does { effect (Instr.Div by.now) self.old ≡ goes (written result self.new) }
        ensures kept { OnErr result (self.new ≡ self.old) }
    {
        let place = self.place(by);
        let divisor = self.word_in(place)?;
        let division = divide(self.register(Reg::Edx), self.register(Reg::Eax), divisor);
        self.put_division(division)
    }

    fn divide_signed(&mut self, by: &Rm) -> Result<(), Cause>
        ensures does { effect (Instr.SignDiv by.now) self.old ≡ goes (written result self.new) }
        ensures kept { OnErr result (self.new ≡ self.old) }
    {
        let place = self.place(by);
        let divisor = self.word_in(place)?;
        let division = divide_signed(self.register(Reg::Edx), self.register(Reg::Eax), divisor);
        self.put_division(division)
    }

    fn extend_sign(&mut self)
        ensures { effect Instr.Cdq self.old ≡ Goes self.new }
    {
        let sign = if self.register(Reg::Eax) < 0x8000_0000 {
            0
        } else {
            0xffff_ffff
        };
        self.set(Reg::Edx, sign);
    }

    // Stores a word below the top of the stack.
    fn push(&mut self, word: u32) -> Result<(), Cause>
        ensures does { pushed self.old word ≡ written result self.new }
        ensures kept { OnErr result (self.new ≡ self.old) }
    {
        let address = self.register(Reg::Esp).wrapping_sub(4);
        if !self.memory.store_word(address, word) {
            return Err(Cause::Access { address });
        }
        self.set(Reg::Esp, address);
        Ok(())
    }

    // Takes the word at the top of the stack.
    fn pop(&mut self) -> Result<u32, Cause>
        ensures word { result ≡ top_word self.old }
        ensures ok { OnOk result (self.new ≡ popped self.old) }
        ensures err { OnErr result (self.new ≡ self.old) }
    {
        let address = self.register(Reg::Esp);
        match self.memory.load_word(address) {
            Some(word) => {
                self.set(Reg::Esp, address.wrapping_add(4));
                Ok(word)
            }
            None => Err(Cause::Access { address }),
        }
    }

    fn pop_to(&mut self, to: Reg) -> Result<(), Cause>
        ensures does { effect (Instr.Pop to) self.old ≡ goes (written result self.new) }
        ensures kept { OnErr result (self.new ≡ self.old) }
    {
        let word = self.pop()?;
        self.set(to, word);
        Ok(())
    }

    fn return_to(&mut self) -> Result<(), Cause>
        ensures does { effect Instr.Ret self.old ≡ goes (written result self.new) }
        ensures kept { OnErr result (self.new ≡ self.old) }
    {
        let word = self.pop()?;
        self.eip = word;
        Ok(())
    }

    fn jump(&mut self, by: u32)
        ensures { self.new ≡ jumped by self.old }
    {
        self.eip = self.eip.wrapping_add(by);
    }

    fn call(&mut self, by: u32) -> Result<(), Cause>
        ensures does { effect (Instr.Call by) self.old ≡ goes (written result self.new) }
        ensures kept { OnErr result (self.new ≡ self.old) }
    {
        self.push(self.eip)?;
        self.jump(by);
        Ok(())
    }

    // Whether a condition holds.
    fn asked(&self, cond: Cond) -> Result<bool, Cause>
        ensures { result ≡ asked cond self.now.flags }
    {
        match self.flags {
            Some(flags) => Ok(holds(cond, flags)),
            None => Err(Cause::Flags),
        }
    }

    fn jump_if(&mut self, cond: Cond, by: u32) -> Result<(), Cause>
        ensures does { effect (Instr.JumpIf cond by) self.old ≡ goes (written result self.new) }
        ensures kept { OnErr result (self.new ≡ self.old) }
    {
        if self.asked(cond)? {
            self.jump(by);
        }
        Ok(())
    }

    fn set_if(&mut self, cond: Cond, to: &Rm) -> Result<(), Cause>
        ensures does { effect (Instr.SetIf cond to.now) self.old ≡ goes (written result self.new) }
        ensures kept { OnErr result (self.new ≡ self.old) }
    {
        let place = self.place(to);
        self.byte_room(place)?;
        let yes = self.asked(cond)?;
        self.put_byte(place, u8::from(yes))
    }

    // What any instruction but a system call does, where eip is past it already.
    pub(super) fn compute(&mut self, instr: &Instr) -> Result<(), Cause>
        requires { is_system_call instr.now ≡ false }
        ensures does { effect instr.now self.old ≡ goes (written result self.new) }
        ensures kept { OnErr result (self.new ≡ self.old) }
    {
        match instr {
            Instr::StoreByte { to, from } => self.store_byte(to, *from),
            Instr::Store { to, from } => self.store(to, self.register(*from)),
            Instr::Load { to, from } => self.load(*to, from),
            Instr::LoadImm { to, value } => {
                self.set(*to, *value);
                Ok(())
            }
            Instr::StoreImm { to, value } => self.store(to, *value),
            Instr::ZeroByte { to, from } => self.zero_byte(*to, from),
            Instr::SignByte { to, from } => self.sign_byte(*to, from),
            Instr::Lea { to, from } => {
                self.lea(*to, from);
                Ok(())
            }
            Instr::Alu { op, to, from } => self.operate(*op, to, self.register(*from)),
            Instr::AluImm { op, to, value } => self.operate(*op, to, *value),
            Instr::AluShort { op, to, value } => {
                self.operate(*op, to, i32::from(*value).cast_unsigned())
            }
            Instr::Mul { to, from } => self.multiply(*to, from),
            Instr::Not { to } => self.invert(to),
            Instr::Neg { to } => self.negate(to),
            Instr::Div { to } => self.divide(to),
            Instr::SignDiv { to } => self.divide_signed(to),
            Instr::Cdq => {
                self.extend_sign();
                Ok(())
            }
            Instr::Shift { op, to } => self.shift(*op, to),
            Instr::Push { from } => self.push(self.register(*from)),
            Instr::Pop { to } => self.pop_to(*to),
            Instr::Call { by } => self.call(*by),
            Instr::Jump { by } => {
                self.jump(*by);
                Ok(())
            }
            Instr::JumpIf { cond, by } => self.jump_if(*cond, *by),
            Instr::JumpShort { by } => {
                self.jump(i32::from(*by).cast_unsigned());
                Ok(())
            }
            Instr::JumpIfShort { cond, by } => {
                self.jump_if(*cond, i32::from(*by).cast_unsigned())
            }
            Instr::SetIf { cond, to } => self.set_if(*cond, to),
            Instr::Ret => self.return_to(),
            Instr::Interrupt { .. } => Err(Cause::System),
        }
    }
}
