//! The operators on two words, and the shifts.

ghost use Rattle.std.specs.Prelude.{◌≡◌};
ghost use Rattle.i386_arith.specs.Operations.{computed, sum, difference, bitwise, operated, shifted};

use crate::flags::Flags;
use i386_code::{AluOp, ShiftOp};

/// A result and its flags.
#[derive(Clone, Copy, Debug, PartialEq, Eq)]
pub struct Computed {
    pub word: u32,
    pub flags: Flags,
}

fn flagged(word: u32, carry: bool, overflow: bool) -> Computed
    ensures { result ≡ computed word carry overflow }
{
    Computed {
        word,
        flags: Flags {
            zero: word == 0,
            sign: word >= 0x8000_0000,
            carry,
            overflow,
        },
    }
}

fn add(a: u32, b: u32) -> Computed
    ensures { result ≡ sum a b }
{
    let (word, carry) = a.overflowing_add(b);
    let (_, overflow) = a.cast_signed().overflowing_add(b.cast_signed());
    flagged(word, carry, overflow)
}

fn subtract(a: u32, b: u32) -> Computed
    ensures { result ≡ difference a b }
{
    let (_, overflow) = a.cast_signed().overflowing_sub(b.cast_signed());
    flagged(a.wrapping_sub(b), a < b, overflow)
}

fn bitwise(word: u32) -> Computed
    ensures { result ≡ bitwise word }
{
    flagged(word, false, false)
}

/// What an operation makes of its first and second operand (Intel SDM, volume 2, under ADD, SUB, AND, OR, XOR, CMP and
/// TEST).
#[inline(always)]
pub fn operate(op: AluOp, a: u32, b: u32) -> Computed
    ensures { result ≡ operated op a b }
{
    match op {
        AluOp::Add => add(a, b),
        AluOp::Sub | AluOp::Cmp => subtract(a, b),
        AluOp::And | AluOp::Test => bitwise(a & b),
        AluOp::Or => bitwise(a | b),
        AluOp::Xor => bitwise(a ^ b),
    }
}

/// A word shifted by the low five bits of a count (Intel SDM, volume 2, under SAL/SAR/SHL/SHR).
pub fn shift(op: ShiftOp, word: u32, count: u32) -> u32
    ensures { result ≡ shifted op word count }
{
    match op {
        ShiftOp::Shl => word.wrapping_shl(count),
        ShiftOp::Shr => word.wrapping_shr(count),
        ShiftOp::Sar => word.cast_signed().wrapping_shr(count).cast_unsigned(),
    }
}
