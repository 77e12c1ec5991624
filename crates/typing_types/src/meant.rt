// The operators that are meant, by types.
ghost use Rattle.std.specs.Prelude.{◌≡◌};
ghost use Rattle.typing_types.specs.Meant.{by_sign, on_integers, on_pointer, compared_pointers, not_of, test_of, conversion_to, width_of};

use crate::class::{Class, Integer};
use crate::ctype::CType;
use block_mem::{Element, Op, Width};
use text_grammar::BinaryOp;

fn by_sign(integer: Integer, signed: Op, unsigned: Op) -> Op
    ensures { result ≡ by_sign integer signed unsigned }
{
    match integer {
        Integer::UnsignedInt => unsigned,
        Integer::Char | Integer::UnsignedChar | Integer::Int => signed,
    }
}

/// What a binary operator means on integers that have become this type. None exactly for `&&` and `||`.
pub fn on_integers(op: BinaryOp, integer: Integer) -> Option<Op>
    ensures { result ≡ on_integers op integer }
{
    Some(match op {
        BinaryOp::Mul => Op::Mul,
        BinaryOp::Div => by_sign(integer, Op::DivSigned, Op::DivUnsigned),
        BinaryOp::Rem => by_sign(integer, Op::RemSigned, Op::RemUnsigned),
        BinaryOp::Add => Op::Add,
        BinaryOp::Sub => Op::Sub,
        BinaryOp::Shl => Op::Shl,
        BinaryOp::Shr => by_sign(integer, Op::ShrSigned, Op::ShrUnsigned),
        BinaryOp::And => Op::And,
        BinaryOp::Or => Op::Or,
        BinaryOp::Xor => Op::Xor,
        BinaryOp::Eq => Op::Eq,
        BinaryOp::Ne => Op::Ne,
        BinaryOp::Lt => by_sign(integer, Op::LtSigned, Op::LtUnsigned),
        BinaryOp::Gt => by_sign(integer, Op::GtSigned, Op::GtUnsigned),
        BinaryOp::Le => by_sign(integer, Op::LeSigned, Op::LeUnsigned),
        BinaryOp::Ge => by_sign(integer, Op::GeSigned, Op::GeUnsigned),
        BinaryOp::AndAnd | BinaryOp::OrOr => return None,
    })
}

/// What `+` and `-` mean on a pointer and an integer, where the pointer's elements have this size. Every other operator is
/// none.
pub fn on_pointer(op: BinaryOp, size: Element) -> Option<Op>
    ensures { result ≡ on_pointer op size }
{
    match op {
        BinaryOp::Add => Some(Op::PtrAdd(size)),
        BinaryOp::Sub => Some(Op::PtrSub(size)),
        _ => None,
    }
}

/// What a comparison means on pointers. Every other operator is none.
pub fn compared_pointers(op: BinaryOp) -> Option<Op>
    ensures { result ≡ compared_pointers op }
{
    match op {
        BinaryOp::Eq => Some(Op::PtrEq),
        BinaryOp::Ne => Some(Op::PtrNe),
        BinaryOp::Lt => Some(Op::PtrLt),
        BinaryOp::Gt => Some(Op::PtrGt),
        BinaryOp::Le => Some(Op::PtrLe),
        BinaryOp::Ge => Some(Op::PtrGe),
        _ => None,
    }
}

/// What `!` means on an integer or a pointer of this type.
pub fn not_of(ctype: &CType<'_>) -> Op
    ensures { result ≡ not_of ctype.now }
{
    if ctype.is_pointer() {
        Op::PtrNot
    } else {
        Op::Not
    }
}

/// What tells, with 0 as its right operand, that a condition of this type holds.
pub fn test_of(ctype: &CType<'_>) -> Op
    ensures { result ≡ test_of ctype.now }
{
    if ctype.is_pointer() {
        Op::PtrNe
    } else {
        Op::Ne
    }
}

/// The conversion of a value to this type.
pub fn conversion_to(ctype: &CType<'_>) -> Op
    ensures { result ≡ conversion_to ctype.now }
{
    match ctype.class() {
        Class::Integer(Integer::Char) => Op::LowSigned,
        Class::Integer(Integer::UnsignedChar) => Op::LowUnsigned,
        _ => Op::Keep,
    }
}

/// How an object of this type is read and written. None exactly where it is not read and written whole: it is an array, a
/// struct or `void`.
pub fn width_of(ctype: &CType<'_>) -> Option<Width>
    ensures { result ≡ width_of ctype.now }
{
    match ctype.class() {
        Class::Integer(Integer::Char) => Some(Width::Signed8),
        Class::Integer(Integer::UnsignedChar) => Some(Width::Unsigned8),
        Class::Integer(Integer::Int | Integer::UnsignedInt) => Some(Width::Word),
        Class::Pointer => Some(Width::Pointer),
        Class::Void | Class::Struct(_) | Class::Array => None,
    }
}
