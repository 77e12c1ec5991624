// The operators, and what they give on integers.
ghost use Rattle.std.specs.Prelude.{◌≡◌, ◌<◌, ◌≤◌};
ghost use Rattle.block_mem.specs.Arithmetic.{signed_byte, has_no_quotient};
ghost use Rattle.block_mem.specs.Integers.{on_word, on_words};

use std::marker::Model;

/// The greatest size of an object or of an element, in bytes.
pub const LARGEST_OBJECT: u32 = 8_388_608;

/// The size of an element that a pointer points to, in bytes: 1 to `LARGEST_OBJECT`. Contracts see the number.
#[derive(Clone, Copy, Debug, PartialEq, Eq)]
pub struct Element {
    size: u32,
}

impl Model for Element {
    ghost use Rattle.std.specs.Prelude.{ℕ, ◌<◌, ◌≤◌};

    ghost Value = { ℕ };

    ghost view = { λ e. e.size };

    ghost invariant = { λ e. (0 < e.size) × (e.size ≤ 8388608) };

    ghost inverse = { λ size. record { size = size } };
}

impl Element {
    /// An element of this size. It takes no memory.
    pub fn new(size: u32) -> Element
        requires some { 0 < size }
        requires few { size ≤ 8388608 }
        ensures { result ≡ size }
    {
        Element { size }
    }

    /// Its size in bytes.
    pub fn size(&self) -> u32
        ensures value { result ≡ self.now }
        ensures some { 0 < result }
        ensures few { result ≤ 8388608 }
    {
        self.size
    }
}

/// An operator of the source, at the types of its operands. One with a single operand looks at the left alone.
#[derive(Clone, Copy, Debug, PartialEq, Eq)]
pub enum Op {
    /// The left operand as it is.
    Keep,
    /// The conversion of an integer to `char` and `signed char`.
    LowSigned,
    /// The conversion of an integer to `unsigned char`.
    LowUnsigned,
    /// `-` with one operand.
    Neg,
    /// `~`.
    Flip,
    /// `!` of an integer.
    Not,
    /// `+` on integers, as the others down to `GeUnsigned`.
    Add,
    Sub,
    Mul,
    DivSigned,
    DivUnsigned,
    RemSigned,
    RemUnsigned,
    And,
    Or,
    Xor,
    Shl,
    ShrSigned,
    ShrUnsigned,
    Eq,
    Ne,
    LtSigned,
    LtUnsigned,
    GtSigned,
    GtUnsigned,
    LeSigned,
    LeUnsigned,
    GeSigned,
    GeUnsigned,
    /// A pointer at the left, moved forward by a number of elements.
    PtrAdd(Element),
    /// The same backward.
    PtrSub(Element),
    /// How many elements lie between two pointers.
    PtrDiff(Element),
    /// `!` of a pointer.
    PtrNot,
    PtrEq,
    PtrNe,
    PtrLt,
    PtrGt,
    PtrLe,
    PtrGe,
}

// A byte as the word of the same signed number.
pub(crate) fn signed_byte(byte: u8) -> u32
    ensures { result ≡ signed_byte byte }
{
    if byte < 128 {
        u32::from(byte)
    } else {
        u32::from(byte) + 0xFFFF_FF00
    }
}

/// The value of an operator with one operand on an integer, where it has one.
pub fn on_word(op: Op, a: u32) -> Option<u32>
    ensures { result ≡ on_word op a }
{
    match op {
        Op::LowSigned => Some(signed_byte((a % 256) as u8)),
        Op::LowUnsigned => Some(a % 256),
        Op::Neg => Some(a.wrapping_neg()),
        Op::Flip => Some(!a),
        Op::Not => Some(u32::from(a == 0)),
        _ => None,
    }
}

fn has_no_quotient(a: u32, b: u32) -> bool
    ensures { result ≡ has_no_quotient a b }
{
    b == 0 || (a == 0x8000_0000 && b == 0xFFFF_FFFF)
}

/// The value of an operator with two operands on integers, where it has one.
pub fn on_words(op: Op, a: u32, b: u32) -> Option<u32>
    ensures { result ≡ on_words op a b }
{
    match op {
        Op::Add => Some(a.wrapping_add(b)),
        Op::Sub => Some(a.wrapping_sub(b)),
        Op::Mul => Some(a.wrapping_mul(b)),
        Op::DivSigned if !has_no_quotient(a, b) => {
            Some((a.cast_signed() / b.cast_signed()).cast_unsigned())
        }
        Op::DivUnsigned if b != 0 => Some(a / b),
        Op::RemSigned if !has_no_quotient(a, b) => {
            Some((a.cast_signed() % b.cast_signed()).cast_unsigned())
        }
        Op::RemUnsigned if b != 0 => Some(a % b),
        Op::And => Some(a & b),
        Op::Or => Some(a | b),
        Op::Xor => Some(a ^ b),
        Op::Shl if b < 32 => Some(a << b),
        Op::ShrSigned if b < 32 => Some((a.cast_signed() >> b).cast_unsigned()),
        Op::ShrUnsigned if b < 32 => Some(a >> b),
        Op::Eq => Some(u32::from(a == b)),
        Op::Ne => Some(u32::from(a != b)),
        Op::LtSigned => Some(u32::from(a.cast_signed() < b.cast_signed())),
        Op::LtUnsigned => Some(u32::from(a < b)),
        Op::GtSigned => Some(u32::from(a.cast_signed() > b.cast_signed())),
        Op::GtUnsigned => Some(u32::from(a > b)),
        Op::LeSigned => Some(u32::from(a.cast_signed() <= b.cast_signed())),
        Op::LeUnsigned => Some(u32::from(a <= b)),
        Op::GeSigned => Some(u32::from(a.cast_signed() >= b.cast_signed())),
        Op::GeUnsigned => Some(u32::from(a >= b)),
        _ => None,
    }
}
