//! From instructions to bytes.

ghost use Rattle.std.specs.Prelude.{◌≡◌, ◌+◌, ◌^◌, ◌<◌, ◌≤◌, ◌++◌, length, Some, None, IfSome};
ghost use Rattle.i386_code.specs.Fields.{fields};
ghost use Rattle.i386_code.specs.Proper.{ProperRm, ProperAddress, TakesConstant, Proper};
ghost use Rattle.i386_code.specs.Operands.{is_short, width_beside, mode_of, base_number, displacement_bytes, sib_byte, address_head, canonical_address, canonical_operand};
ghost use Rattle.i386_code.specs.Table.{alu_opcode, alu_digit, shift_digit, layout_of, constant_bytes, FitsBytes};
ghost use Rattle.i386_code.specs.Spelling.{canonical, canonical_modrm, Spells};
ghost use Rattle.i386_code.specs.Writing.{opcode_bytes, constant_of, modrm_of, layout, FitsDisp, IsWritable};

use crate::code::Code;
use crate::instr::{Address, AluOp, Cond, Instr, Reg, Rm, Scaled, ShiftOp};
use crate::operand::Width;
use Constant::{Absent, Byte, Signed, Word};
use Opcode::{One, Two};

/// The opcode: one byte, or two of which the first is 0F.
#[derive(Clone, Copy)]
pub enum Opcode {
    One(u8),
    Two(u8),
}

/// What stands behind opcode and operand.
#[derive(Clone, Copy)]
pub enum Constant {
    Absent,
    Byte(u8),
    Signed(i8),
    Word(u32),
}

/// The operand that ModRM names, and the number in its reg field.
#[derive(Clone, Copy)]
pub struct Operand {
    pub field: u8,
    pub rm: Rm,
}

/// The parts of an instruction's bytes.
#[derive(Clone, Copy)]
pub struct Parts {
    pub opcode: Opcode,
    pub operand: Option<Operand>,
    pub constant: Constant,
}

fn plain(opcode: Opcode, constant: Constant) -> Parts
    ensures { result ≡ record { opcode = opcode; operand = None; constant = constant } }
{
    Parts {
        opcode,
        operand: None,
        constant,
    }
}

fn modrm(opcode: Opcode, field: u8, rm: Rm, constant: Constant) -> Parts
    ensures { result ≡ record { opcode = opcode; operand = Some (record { field = field; rm = rm }); constant = constant } }
{
    Parts {
        opcode,
        operand: Some(Operand { field, rm }),
        constant,
    }
}

fn alu_opcode_of(op: AluOp) -> u8
    ensures { result ≡ alu_opcode op }
{
    match op {
        AluOp::Add => 0x01,
        AluOp::Sub => 0x29,
        AluOp::And => 0x21,
        AluOp::Or => 0x09,
        AluOp::Xor => 0x31,
        AluOp::Cmp => 0x39,
        AluOp::Test => 0x85,
    }
}

/// The digit of an operation with a constant.
fn alu_digit_of(op: AluOp) -> u8
    requires { TakesConstant op }
    ensures { result ≡ alu_digit op }
{
    match op {
        AluOp::Add => 0,
        AluOp::And => 4,
        AluOp::Sub => 5,
        AluOp::Cmp => 7,
        AluOp::Or | AluOp::Xor | AluOp::Test => unreachable!(),
    }
}

fn shift_digit_of(op: ShiftOp) -> u8
    ensures { result ≡ shift_digit op }
{
    match op {
        ShiftOp::Shl => 4,
        ShiftOp::Shr => 5,
        ShiftOp::Sar => 7,
    }
}

/// The parts of an instruction, by the table.
fn parts_of(instr: &Instr) -> Parts
    requires { Proper instr.now }
    ensures parts { layout result ≡ layout_of instr.now }
    ensures writable { IsWritable result }
{
    match *instr {
        Instr::StoreByte { to, from } => modrm(One(0x88), from.number(), to, Absent),
        Instr::Store { to, from } => modrm(One(0x89), from.number(), to, Absent),
        Instr::Load { to, from } => modrm(One(0x8b), to.number(), from, Absent),
        Instr::LoadImm { to, value } => plain(One(0xb8 + to.number()), Word(value)),
        Instr::StoreImm { to, value } => modrm(One(0xc7), 0, to, Word(value)),
        Instr::ZeroByte { to, from } => modrm(Two(0xb6), to.number(), from, Absent),
        Instr::SignByte { to, from } => modrm(Two(0xbe), to.number(), from, Absent),
        Instr::Lea { to, from } => modrm(One(0x8d), to.number(), Rm::Mem(from), Absent),
        Instr::Alu { op, to, from } => modrm(One(alu_opcode_of(op)), from.number(), to, Absent),
        Instr::AluImm { op, to, value } => modrm(One(0x81), alu_digit_of(op), to, Word(value)),
        Instr::AluShort { op, to, value } => modrm(One(0x83), alu_digit_of(op), to, Signed(value)),
        Instr::Mul { to, from } => modrm(Two(0xaf), to.number(), from, Absent),
        Instr::Not { to } => modrm(One(0xf7), 2, to, Absent),
        Instr::Neg { to } => modrm(One(0xf7), 3, to, Absent),
        Instr::Div { to } => modrm(One(0xf7), 6, to, Absent),
        Instr::SignDiv { to } => modrm(One(0xf7), 7, to, Absent),
        Instr::Cdq => plain(One(0x99), Absent),
        Instr::Shift { op, to } => modrm(One(0xd3), shift_digit_of(op), to, Absent),
        Instr::Push { from } => plain(One(0x50 + from.number()), Absent),
        Instr::Pop { to } => plain(One(0x58 + to.number()), Absent),
        Instr::Call { by } => plain(One(0xe8), Word(by)),
        Instr::Jump { by } => plain(One(0xe9), Word(by)),
        Instr::JumpIf { cond, by } => plain(Two(0x80 + cond.code()), Word(by)),
        Instr::JumpShort { by } => plain(One(0xeb), Signed(by)),
        Instr::JumpIfShort { cond, by } => plain(One(0x70 + cond.code()), Signed(by)),
        Instr::SetIf { cond, to } => modrm(Two(0x90 + cond.code()), 0, to, Absent),
        Instr::Ret => plain(One(0xc3), Absent),
        Instr::Interrupt { number } => plain(One(0xcd), Byte(number)),
    }
}

/// A byte of two, three and three bits.
fn fields_of(high: u8, middle: u8, low: u8) -> u8
    requires high { high < 4 }
    requires middle { middle < 8 }
    requires low { low < 8 }
    ensures { result ≡ fields high middle low }
{
    64 * high + 8 * middle + low
}

/// Whether one byte has the displacement as its sign extension.
fn is_short_disp(disp: u32) -> bool
    ensures { result ≡ is_short disp }
{
    disp < 0x80 || disp >= 0xffff_ff80
}

fn width_of(base: Option<Reg>, disp: u32) -> Width
    ensures { result ≡ width_beside base disp }
{
    match base {
        None => Width::Word,
        Some(Reg::Ebp) if disp == 0 => Width::Byte,
        Some(_) if disp == 0 => Width::Absent,
        Some(_) if is_short_disp(disp) => Width::Byte,
        Some(_) => Width::Word,
    }
}

fn mode_beside(base: Option<Reg>, width: Width) -> u8
    ensures mode { result ≡ mode_of base width }
    ensures small { result < 3 }
{
    match (base, width) {
        (None, _) => 0,
        (Some(_), Width::Absent) => 0,
        (Some(_), Width::Byte) => 1,
        (Some(_), Width::Word) => 2,
    }
}

fn number_of_base(base: Option<Reg>) -> u8
    ensures number { result ≡ base_number base }
    ensures small { result < 8 }
{
    match base {
        Some(base) => base.number(),
        None => 5,
    }
}

/// The SIB byte, with the number of the base.
fn sib_of(index: Option<Scaled>, base: u8) -> u8
    requires proper { IfSome index (λ index. index.shift ≤ 3) }
    requires base { base < 8 }
    ensures { result ≡ sib_byte index base }
{
    match index {
        Some(index) => fields_of(index.shift, index.register.number(), base),
        None => fields_of(0, 4, base),
    }
}

/// Writes ModRM, and SIB where the address needs it.
fn put_address_head(code: &mut Code, field: u8, address: &Address, width: Width)
    requires proper { ProperAddress address.now }
    requires field { field < 8 }
    requires room { length code.old + 2 ≤ 11 }
    ensures { code.new ≡ code.old ++ address_head field address.now width }
{
    let mode = mode_beside(address.base, width);
    let number = number_of_base(address.base);
    if address.index.is_some() || number == 4 {
        code.push(fields_of(mode, field, 4));
        code.push(sib_of(address.index, number));
    } else {
        code.push(fields_of(mode, field, number));
    }
}

fn put_displacement(code: &mut Code, width: Width, disp: u32)
    requires { length code.old + 4 ≤ 11 }
    ensures { code.new ≡ code.old ++ displacement_bytes width disp }
{
    match width {
        Width::Absent => {}
        Width::Byte => code.push((disp % 256) as u8),
        Width::Word => code.push_word(disp),
    }
}

fn put_address(code: &mut Code, field: u8, address: &Address)
    requires proper { ProperAddress address.now }
    requires field { field < 8 }
    requires room { length code.old + 6 ≤ 11 }
    ensures written { code.new ≡ code.old ++ canonical_address field address.now (width_beside address.now.base address.now.disp) }
    ensures fits { address.now.disp < 2 ^ 32 }
{
    let width = width_of(address.base, address.disp);
    put_address_head(code, field, address, width);
    put_displacement(code, width, address.disp);
}

fn put_operand(code: &mut Code, operand: &Option<Operand>)
    requires proper { IfSome operand.now (λ operand. (operand.field < 8) × ProperRm operand.rm) }
    requires room { length code.old + 6 ≤ 11 }
    ensures written { code.new ≡ code.old ++ canonical_modrm (modrm_of operand.now) }
    ensures fits { FitsDisp (modrm_of operand.now) }
{
    match operand {
        None => {}
        Some(
            Operand {
                field,
                rm: Rm::Reg(reg),
            },
        ) => code.push(fields_of(3, *field, reg.number())),
        Some(
            Operand {
                field,
                rm: Rm::Mem(address),
            },
        ) => put_address(code, *field, address),
    }
}

fn put_constant(code: &mut Code, constant: Constant)
    requires { length code.old + length (constant_bytes (constant_of constant)) ≤ 11 }
    ensures written { code.new ≡ code.old ++ constant_bytes (constant_of constant) }
    ensures fits { FitsBytes (constant_of constant) }
{
    match constant {
        Constant::Absent => {}
        Constant::Byte(value) => code.push(value),
        Constant::Signed(value) => code.push(value.cast_unsigned()),
        Constant::Word(value) => code.push_word(value),
    }
}

fn put_opcode(code: &mut Code, opcode: Opcode)
    requires { length code.old + 2 ≤ 11 }
    ensures { code.new ≡ code.old ++ opcode_bytes opcode }
{
    match opcode {
        Opcode::One(byte) => code.push(byte),
        Opcode::Two(byte) => {
            code.push(0x0f);
            code.push(byte);
        }
    }
}

/// The one spelling of a proper instruction that is written: a SIB byte only where the base is esp or there is an index,
/// and the shortest displacement. Takes no memory.
pub fn encode(instr: &Instr) -> Code
    requires { Proper instr.now }
    ensures canonical { result ≡ canonical instr.now }
    ensures spelled { Spells instr.now result }
    ensures length { length result ≤ 11 }
{
    let parts = parts_of(instr);
    let mut code = Code::new();
    put_opcode(&mut code, parts.opcode);
    put_operand(&mut code, &parts.operand);
    put_constant(&mut code, parts.constant);
    code
}
