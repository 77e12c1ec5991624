//! From bytes to instructions.

ghost use Rattle.std.specs.Prelude.{◌≡◌, ◌≤◌, ◌↔◌, ℕ, Some, length};
ghost use Rattle.i386_code.specs.Proper.{Proper};
ghost use Rattle.i386_code.specs.declared.instr.Instr.{Instr};
ghost use Rattle.i386_code.specs.Spelling.{IsAtFront, IsCutShort, IsNoInstruction, HasShortLength, NoneBeginsAnother, canonical};
ghost use Rattle.i386_code.specs.declared.rows.Row.TheVariants.{WithOperand};
ghost use Rattle.i386_code.specs.Reading.{run, decoded, instr_of, finish, opened, instruction, is_byte_operand, plain_instr, word_instr, byte_instr};

use crate::encoder::encode;
use crate::instr::{Decoded, Instr, Rm};
use crate::operand::{operand_at, word_at};
use crate::proper::has_low_byte;
use crate::rows::{
    ByteRow, Head, OperandRow, PlainRow, Row, WordRow, head_of, long_row_of, row_of,
};

/// Whether an operand of one byte may be this.
fn names_byte(operand: &Rm) -> bool
    ensures { result ≡ is_byte_operand operand.now }
{
    match operand {
        Rm::Reg(reg) => has_low_byte(*reg),
        Rm::Mem(_) => true,
    }
}

/// The instruction of this operand, where no constant follows. None: the row doesn't take the operand.
fn instruction_of(head: Head, operand: Rm) -> Option<Instr>
    ensures { result ≡ instr_of head operand }
{
    let is_byte = names_byte(&operand);
    let instr = match head {
        Head::StoreByte(from) if is_byte => Instr::StoreByte { to: operand, from },
        Head::ZeroByte(to) if is_byte => Instr::ZeroByte { to, from: operand },
        Head::SignByte(to) if is_byte => Instr::SignByte { to, from: operand },
        Head::SetIf(cond) if is_byte => Instr::SetIf { cond, to: operand },
        Head::StoreByte(_) | Head::ZeroByte(_) | Head::SignByte(_) | Head::SetIf(_) => return None,
        Head::Store(from) => Instr::Store { to: operand, from },
        Head::Load(to) => Instr::Load { to, from: operand },
        Head::Lea(to) => match operand {
            Rm::Mem(from) => Instr::Lea { to, from },
            Rm::Reg(_) => return None,
        },
        Head::Alu(op, from) => Instr::Alu {
            op,
            to: operand,
            from,
        },
        Head::Mul(to) => Instr::Mul { to, from: operand },
        Head::Not => Instr::Not { to: operand },
        Head::Neg => Instr::Neg { to: operand },
        Head::Div => Instr::Div { to: operand },
        Head::SignDiv => Instr::SignDiv { to: operand },
        Head::Shift(op) => Instr::Shift { op, to: operand },
        Head::StoreImm | Head::AluImm(_) | Head::AluShort(_) => return None,
    };
    Some(instr)
}

/// The rest of an instruction, behind its operand, where `length` bytes stand before the rest.
#[tactic(auto, using(crate::proofs::Runs::runs))]
fn finished(head: Head, to: Rm, length: u8, rest: &[u8]) -> Decoded
    requires { length ≤ 8 }
    ensures { result ≡ run (finish head to) length rest.now }
{
    match (head, rest) {
        (Head::StoreImm, _) => match word_at(rest) {
            Some(value) => Decoded::Is(Instr::StoreImm { to, value }, length + 4),
            None => Decoded::Short,
        },
        (Head::AluImm(op), _) => match word_at(rest) {
            Some(value) => Decoded::Is(Instr::AluImm { op, to, value }, length + 4),
            None => Decoded::Short,
        },
        (Head::AluShort(_), []) => Decoded::Short,
        (Head::AluShort(op), [byte, ..]) => {
            let value = byte.cast_signed();
            Decoded::Is(Instr::AluShort { op, to, value }, length + 1)
        }
        _ => match instruction_of(head, to) {
            Some(instr) => Decoded::Is(instr, length),
            None => Decoded::Unknown,
        },
    }
}

/// The rest behind an opcode that a ModRM byte follows.
#[tactic(auto, using(crate::proofs::Runs::runs))]
fn with_operand(row: OperandRow, length: u8, rest: &[u8]) -> Decoded
    requires { length ≤ 2 }
    ensures { result ≡ run (opened (Some (WithOperand row))) length rest.now }
{
    let [modrm, rest @ ..] = rest else {
        return Decoded::Short;
    };
    let Some(head) = head_of(row, *modrm / 8 % 8) else {
        return Decoded::Unknown;
    };
    match operand_at(*modrm, rest) {
        Some((operand, count)) => finished(
            head,
            operand,
            length + 1 + count,
            &rest[usize::from(count)..],
        ),
        None => Decoded::Short,
    }
}

/// The rest behind an opcode, where `length` bytes stand before the rest.
#[tactic(auto, using(crate::proofs::Runs::runs))]
fn behind_opcode(row: Row, length: u8, rest: &[u8]) -> Decoded
    requires { length ≤ 2 }
    ensures { result ≡ run (opened (Some row)) length rest.now }
{
    match row {
        Row::Plain(row) => Decoded::Is(plain_instruction(row), length),
        Row::WithWord(row) => match word_at(rest) {
            Some(value) => Decoded::Is(word_instruction(row, value), length + 4),
            None => Decoded::Short,
        },
        Row::WithByte(row) => match rest {
            [byte, ..] => Decoded::Is(byte_instruction(row, *byte), length + 1),
            [] => Decoded::Short,
        },
        Row::WithOperand(row) => with_operand(row, length, rest),
    }
}

fn plain_instruction(row: PlainRow) -> Instr
    ensures { result ≡ plain_instr row }
{
    match row {
        PlainRow::Push(from) => Instr::Push { from },
        PlainRow::Pop(to) => Instr::Pop { to },
        PlainRow::Cdq => Instr::Cdq,
        PlainRow::Ret => Instr::Ret,
    }
}

fn word_instruction(row: WordRow, word: u32) -> Instr
    ensures { result ≡ word_instr row word }
{
    match row {
        WordRow::LoadImm(to) => Instr::LoadImm { to, value: word },
        WordRow::Call => Instr::Call { by: word },
        WordRow::Jump => Instr::Jump { by: word },
        WordRow::JumpIf(cond) => Instr::JumpIf { cond, by: word },
    }
}

fn byte_instruction(row: ByteRow, byte: u8) -> Instr
    ensures { result ≡ byte_instr row byte }
{
    match row {
        ByteRow::JumpShort => Instr::JumpShort {
            by: byte.cast_signed(),
        },
        ByteRow::JumpIfShort(cond) => Instr::JumpIfShort {
            cond,
            by: byte.cast_signed(),
        },
        ByteRow::Interrupt => Instr::Interrupt { number: byte },
    }
}

/// What the bytes begin with, as the reader of instructions gives it.
fn read_instruction(bytes: &[u8]) -> Decoded
    ensures { result ≡ run instruction 0 bytes.now }
{
    let (row, length, rest) = match bytes {
        [0x0f, opcode, rest @ ..] => (long_row_of(*opcode), 2, rest),
        [] | [0x0f] => return Decoded::Short,
        [opcode, rest @ ..] => (row_of(*opcode), 1, rest),
    };
    match row {
        Some(row) => behind_opcode(row, length, rest),
        None => Decoded::Unknown,
    }
}

/// What the bytes begin with. Each spelling of the table is taken, also those that `encode` doesn't choose. Takes no
/// memory.
pub fn decode(bytes: &[u8]) -> Decoded
    // An instruction and its length exactly where so many bytes of the front spell it.
    ensures found { (instr : Instr) (count : ℕ) → (result ≡ Decoded.Is instr count) ↔ IsAtFront bytes.now instr count }
    ensures short { (result ≡ Decoded.Short) ↔ IsCutShort bytes.now }
    ensures unknown { (result ≡ Decoded.Unknown) ↔ IsNoInstruction bytes.now }
    ensures length { HasShortLength result }
    // This answer as a function of the bytes, for definitions of what runs them.
    ensures value { result ≡ decoded bytes.now }
{
    read_instruction(bytes)
}

/// What is written for a proper instruction is read as that instruction, with its whole length.
pub fn decode_encoded(instr: &Instr) -> Decoded
    requires { Proper instr.now }
    ensures { result ≡ Decoded.Is instr.now (length (canonical instr.now)) }
{
    decode(encode(instr).as_slice())
}

/// No spelling is a proper prefix of another, and none spells two instructions.
pub fn spellings_end()
    ensures { NoneBeginsAnother }
{}
