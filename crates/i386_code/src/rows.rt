//! What the opcode bytes say: the row of the table, and what follows them.

ghost use Rattle.std.specs.Prelude.{◌≡◌, ◌<◌};
ghost use Rattle.i386_code.specs.Fields.{reg_at, cond_at};
ghost use Rattle.i386_code.specs.Rows.{row_at, long_row_at, head_at, alu_at, shift_at, unary_at};

use crate::instr::{AluOp, Cond, Reg, ShiftOp};

/// What an opcode begins.
#[derive(Clone, Copy)]
pub enum Row {
    /// A whole instruction.
    Plain(PlainRow),
    /// An instruction with four bytes after the opcode.
    WithWord(WordRow),
    /// An instruction with one byte after the opcode.
    WithByte(ByteRow),
    /// An instruction with a ModRM byte after the opcode.
    WithOperand(OperandRow),
}

#[derive(Clone, Copy)]
pub enum PlainRow {
    Push(Reg),
    Pop(Reg),
    Cdq,
    Ret,
}

#[derive(Clone, Copy)]
pub enum WordRow {
    LoadImm(Reg),
    Call,
    Jump,
    JumpIf(Cond),
}

#[derive(Clone, Copy)]
pub enum ByteRow {
    JumpShort,
    JumpIfShort(Cond),
    Interrupt,
}

/// An opcode before a ModRM byte.
#[derive(Clone, Copy)]
pub enum OperandRow {
    StoreByte,
    Store,
    Load,
    StoreImm,
    ZeroByte,
    SignByte,
    Lea,
    Alu(AluOp),
    AluImm,
    AluShort,
    Mul,
    Unary,
    Shift,
    SetIf(Cond),
}

/// An instruction without its operand and its constant: what the opcode and the reg field of ModRM say.
#[derive(Clone, Copy)]
pub enum Head {
    StoreByte(Reg),
    Store(Reg),
    Load(Reg),
    StoreImm,
    ZeroByte(Reg),
    SignByte(Reg),
    Lea(Reg),
    Alu(AluOp, Reg),
    AluImm(AluOp),
    AluShort(AluOp),
    Mul(Reg),
    Not,
    Neg,
    Div,
    SignDiv,
    Shift(ShiftOp),
    SetIf(Cond),
}

static REGISTERS: [Reg; 8] = [
    Reg::Eax,
    Reg::Ecx,
    Reg::Edx,
    Reg::Ebx,
    Reg::Esp,
    Reg::Ebp,
    Reg::Esi,
    Reg::Edi,
];

/// The register of a number.
pub fn register(number: u8) -> Reg
    requires { number < 8 }
    ensures { result ≡ reg_at number }
{
    REGISTERS[usize::from(number)]
}

/// The condition of a code.
pub fn condition(code: u8) -> Option<Cond>
    requires { code < 16 }
    ensures { result ≡ cond_at code }
{
    match code {
        2 => Some(Cond::B),
        3 => Some(Cond::Ae),
        4 => Some(Cond::E),
        5 => Some(Cond::Ne),
        6 => Some(Cond::Be),
        7 => Some(Cond::A),
        12 => Some(Cond::L),
        13 => Some(Cond::Ge),
        14 => Some(Cond::Le),
        15 => Some(Cond::G),
        _ => None,
    }
}

/// The row of an opcode of one byte.
#[tactic(auto, unfolding(crate::specs::Rows::row_at))]
pub fn row_of(opcode: u8) -> Option<Row>
    ensures { result ≡ row_at opcode }
{
    let row = match opcode {
        0x01 => Row::WithOperand(OperandRow::Alu(AluOp::Add)),
        0x09 => Row::WithOperand(OperandRow::Alu(AluOp::Or)),
        0x21 => Row::WithOperand(OperandRow::Alu(AluOp::And)),
        0x29 => Row::WithOperand(OperandRow::Alu(AluOp::Sub)),
        0x31 => Row::WithOperand(OperandRow::Alu(AluOp::Xor)),
        0x39 => Row::WithOperand(OperandRow::Alu(AluOp::Cmp)),
        0x50..=0x57 => Row::Plain(PlainRow::Push(register(opcode - 0x50))),
        0x58..=0x5f => Row::Plain(PlainRow::Pop(register(opcode - 0x58))),
        0x70..=0x7f => Row::WithByte(ByteRow::JumpIfShort(condition(opcode - 0x70)?)),
        0x81 => Row::WithOperand(OperandRow::AluImm),
        0x83 => Row::WithOperand(OperandRow::AluShort),
        0x85 => Row::WithOperand(OperandRow::Alu(AluOp::Test)),
        0x88 => Row::WithOperand(OperandRow::StoreByte),
        0x89 => Row::WithOperand(OperandRow::Store),
        0x8b => Row::WithOperand(OperandRow::Load),
        0x8d => Row::WithOperand(OperandRow::Lea),
        0x99 => Row::Plain(PlainRow::Cdq),
        0xb8..=0xbf => Row::WithWord(WordRow::LoadImm(register(opcode - 0xb8))),
        0xc3 => Row::Plain(PlainRow::Ret),
        0xc7 => Row::WithOperand(OperandRow::StoreImm),
        0xcd => Row::WithByte(ByteRow::Interrupt),
        0xd3 => Row::WithOperand(OperandRow::Shift),
        0xe8 => Row::WithWord(WordRow::Call),
        0xe9 => Row::WithWord(WordRow::Jump),
        0xeb => Row::WithByte(ByteRow::JumpShort),
        0xf7 => Row::WithOperand(OperandRow::Unary),
        _ => return None,
    };
    Some(row)
}

/// The row of an opcode of two bytes, of which the first is 0F.
#[tactic(auto, unfolding(crate::specs::Rows::long_row_at))]
pub fn long_row_of(opcode: u8) -> Option<Row>
    ensures { result ≡ long_row_at opcode }
{
    let row = match opcode {
        0x80..=0x8f => Row::WithWord(WordRow::JumpIf(condition(opcode - 0x80)?)),
        0x90..=0x9f => Row::WithOperand(OperandRow::SetIf(condition(opcode - 0x90)?)),
        0xaf => Row::WithOperand(OperandRow::Mul),
        0xb6 => Row::WithOperand(OperandRow::ZeroByte),
        0xbe => Row::WithOperand(OperandRow::SignByte),
        _ => return None,
    };
    Some(row)
}

/// The operation of a digit, with a constant.
fn alu_of(digit: u8) -> Option<AluOp>
    ensures { result ≡ alu_at digit }
{
    match digit {
        0 => Some(AluOp::Add),
        4 => Some(AluOp::And),
        5 => Some(AluOp::Sub),
        7 => Some(AluOp::Cmp),
        _ => None,
    }
}

fn shift_of(digit: u8) -> Option<ShiftOp>
    ensures { result ≡ shift_at digit }
{
    match digit {
        4 => Some(ShiftOp::Shl),
        5 => Some(ShiftOp::Shr),
        7 => Some(ShiftOp::Sar),
        _ => None,
    }
}

fn unary_of(digit: u8) -> Option<Head>
    ensures { result ≡ unary_at digit }
{
    match digit {
        2 => Some(Head::Not),
        3 => Some(Head::Neg),
        6 => Some(Head::Div),
        7 => Some(Head::SignDiv),
        _ => None,
    }
}

/// What the opcode and the reg field of ModRM say together, where the table has a row for both.
pub fn head_of(row: OperandRow, field: u8) -> Option<Head>
    requires { field < 8 }
    ensures { result ≡ head_at row field }
{
    let head = match row {
        OperandRow::StoreByte if field < 4 => Head::StoreByte(register(field)),
        OperandRow::StoreByte => return None,
        OperandRow::Store => Head::Store(register(field)),
        OperandRow::Load => Head::Load(register(field)),
        OperandRow::StoreImm if field == 0 => Head::StoreImm,
        OperandRow::StoreImm => return None,
        OperandRow::ZeroByte => Head::ZeroByte(register(field)),
        OperandRow::SignByte => Head::SignByte(register(field)),
        OperandRow::Lea => Head::Lea(register(field)),
        OperandRow::Alu(op) => Head::Alu(op, register(field)),
        OperandRow::AluImm => Head::AluImm(alu_of(field)?),
        OperandRow::AluShort => Head::AluShort(alu_of(field)?),
        OperandRow::Mul => Head::Mul(register(field)),
        OperandRow::Unary => unary_of(field)?,
        OperandRow::Shift => Head::Shift(shift_of(field)?),
        OperandRow::SetIf(cond) if field == 0 => Head::SetIf(cond),
        OperandRow::SetIf(_) => return None,
    };
    Some(head)
}
