//! Which instructions stand in the table.

ghost use Rattle.std.specs.Prelude.{IsTrue, ◌↔◌};
ghost use Rattle.i386_code.specs.Proper.{HasLowByte, ProperAddress, ProperRm, ProperByte, TakesConstant, Proper};

use crate::instr::{Address, AluOp, Instr, Reg, Rm};

/// Whether the register has a low byte of its own.
pub fn has_low_byte(reg: Reg) -> bool
    ensures { IsTrue result ↔ HasLowByte reg }
{
    matches!(reg, Reg::Eax | Reg::Ecx | Reg::Edx | Reg::Ebx)
}

fn is_proper_address(address: &Address) -> bool
    ensures { IsTrue result ↔ ProperAddress address.now }
{
    match address.index {
        Some(index) => index.register != Reg::Esp && index.shift <= 3,
        None => true,
    }
}

fn is_proper_rm(operand: &Rm) -> bool
    ensures { IsTrue result ↔ ProperRm operand.now }
{
    match operand {
        Rm::Reg(_) => true,
        Rm::Mem(address) => is_proper_address(address),
    }
}

fn is_proper_byte(operand: &Rm) -> bool
    ensures { IsTrue result ↔ ProperByte operand.now }
{
    match operand {
        Rm::Reg(reg) => has_low_byte(*reg),
        Rm::Mem(address) => is_proper_address(address),
    }
}

fn takes_constant(op: AluOp) -> bool
    ensures { IsTrue result ↔ TakesConstant op }
{
    matches!(op, AluOp::Add | AluOp::And | AluOp::Sub | AluOp::Cmp)
}

/// Whether the instruction stands in the table: one-byte registers are al, cl, dl or bl, the operation of `AluImm` and
/// `AluShort` is add, and, sub or cmp, no index is esp, and no shift of an index is above 3. Takes no memory.
pub fn is_proper(instr: &Instr) -> bool
    ensures { IsTrue result ↔ Proper instr.now }
{
    match instr {
        Instr::StoreByte { to, from } => is_proper_byte(to) && has_low_byte(*from),
        Instr::ZeroByte { from, .. } | Instr::SignByte { from, .. } => is_proper_byte(from),
        Instr::SetIf { to, .. } => is_proper_byte(to),
        Instr::Store { to, .. } | Instr::StoreImm { to, .. } | Instr::Alu { to, .. } =>
            is_proper_rm(to),
        Instr::Load { from, .. } | Instr::Mul { from, .. } => is_proper_rm(from),
        Instr::Not { to } | Instr::Neg { to } | Instr::Div { to } | Instr::SignDiv { to } =>
            is_proper_rm(to),
        Instr::Shift { to, .. } => is_proper_rm(to),
        Instr::Lea { from, .. } => is_proper_address(from),
        Instr::AluImm { op, to, .. } | Instr::AluShort { op, to, .. } => takes_constant(*op)
            && is_proper_rm(to),
        Instr::LoadImm { .. } | Instr::Push { .. } | Instr::Pop { .. } => true,
        Instr::Call { .. } | Instr::Jump { .. } | Instr::JumpIf { .. } => true,
        Instr::JumpShort { .. } | Instr::JumpIfShort { .. } => true,
        Instr::Cdq | Instr::Ret | Instr::Interrupt { .. } => true,
    }
}
