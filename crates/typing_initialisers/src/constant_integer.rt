// What constant integers come to.
ghost use Rattle.std.specs.Prelude.{◌≡◌};
ghost use Rattle.typing_initialisers.specs.ConstantIntegers.{takes_integer, takes_integers, asks_integer, known_or_wrong, word_under, of_one, unary, of_two, binary, truth, test, beside, both, either};

use block_mem::{Op, on_word, on_words};

/// What is known of an expression as a constant integer.
#[derive(Clone, Copy, Debug, PartialEq, Eq)]
pub enum ConstantInteger {
    /// It is built of more than literals, sizes, integer operators and casts.
    NotConstant,
    /// It is built of these and goes wrong.
    Wrong,
    /// It is built of these and has this value.
    Known(u32),
}

fn takes_integer(op: &Op) -> bool
    ensures { result ≡ takes_integer op.now }
{
    match op {
        Op::Keep | Op::LowSigned | Op::LowUnsigned | Op::Neg | Op::Flip | Op::Not => true,
        _ => false,
    }
}

fn takes_integers(op: &Op) -> bool
    ensures { result ≡ takes_integers op.now }
{
    match op {
        Op::Add | Op::Sub | Op::Mul | Op::And | Op::Or | Op::Xor => true,
        Op::DivSigned | Op::DivUnsigned | Op::RemSigned | Op::RemUnsigned => true,
        Op::Shl | Op::ShrSigned | Op::ShrUnsigned | Op::Eq | Op::Ne => true,
        Op::LtSigned | Op::LtUnsigned | Op::GtSigned | Op::GtUnsigned => true,
        Op::LeSigned | Op::LeUnsigned | Op::GeSigned | Op::GeUnsigned => true,
        _ => false,
    }
}

fn known_or_wrong(value: Option<u32>) -> ConstantInteger
    ensures { result ≡ known_or_wrong value }
{
    match value {
        Some(n) => ConstantInteger::Known(n),
        None => ConstantInteger::Wrong,
    }
}

fn word_under(op: Op, n: u32) -> ConstantInteger
    ensures { result ≡ word_under op n }
{
    match op {
        Op::Keep => ConstantInteger::Known(n),
        _ => known_or_wrong(on_word(op, n)),
    }
}

/// An operator with one operand, or a cast.
pub(crate) fn unary(op: &Op, operand: ConstantInteger) -> ConstantInteger
    ensures { result ≡ unary op.now operand }
{
    if !takes_integer(op) {
        return ConstantInteger::NotConstant;
    }
    match operand {
        ConstantInteger::Known(n) => word_under(*op, n),
        other => other,
    }
}

fn of_two(op: Op, left: ConstantInteger, right: ConstantInteger) -> ConstantInteger
    ensures { result ≡ of_two op left right }
{
    match (left, right) {
        (ConstantInteger::NotConstant, _) | (_, ConstantInteger::NotConstant) =>
            ConstantInteger::NotConstant,
        (ConstantInteger::Wrong, _) | (_, ConstantInteger::Wrong) => ConstantInteger::Wrong,
        (ConstantInteger::Known(n), ConstantInteger::Known(m)) => known_or_wrong(on_words(
            op, n, m,
        )),
    }
}

/// An operator with two operands, other than `&&` and `||`.
pub(crate) fn binary(op: &Op, left: ConstantInteger, right: ConstantInteger) -> ConstantInteger
    ensures { result ≡ binary op.now left right }
{
    if takes_integers(op) {
        of_two(*op, left, right)
    } else {
        ConstantInteger::NotConstant
    }
}

fn truth(value: ConstantInteger) -> ConstantInteger
    ensures { result ≡ truth value }
{
    match value {
        ConstantInteger::Known(0) => ConstantInteger::Known(0),
        ConstantInteger::Known(_) => ConstantInteger::Known(1),
        other => other,
    }
}

fn asks_integer(op: Op) -> bool
    ensures { result ≡ asks_integer op }
{
    matches!(op, Op::Ne)
}

/// A condition, as 0 or 1.
pub(crate) fn test(differs: Op, value: ConstantInteger) -> ConstantInteger
    ensures { result ≡ test differs value }
{
    if asks_integer(differs) {
        truth(value)
    } else {
        ConstantInteger::NotConstant
    }
}

// A value that does not wait for a part that must be constant too.
fn beside(part: ConstantInteger, value: ConstantInteger) -> ConstantInteger
    ensures { result ≡ beside part value }
{
    match part {
        ConstantInteger::NotConstant => ConstantInteger::NotConstant,
        ConstantInteger::Wrong | ConstantInteger::Known(_) => value,
    }
}

/// `&&`.
pub(crate) fn both(left: ConstantInteger, right: ConstantInteger) -> ConstantInteger
    ensures { result ≡ both left right }
{
    match left {
        ConstantInteger::NotConstant => ConstantInteger::NotConstant,
        ConstantInteger::Wrong => beside(right, ConstantInteger::Wrong),
        ConstantInteger::Known(0) => beside(right, ConstantInteger::Known(0)),
        ConstantInteger::Known(_) => right,
    }
}

/// `||`.
pub(crate) fn either(left: ConstantInteger, right: ConstantInteger) -> ConstantInteger
    ensures { result ≡ either left right }
{
    match left {
        ConstantInteger::NotConstant => ConstantInteger::NotConstant,
        ConstantInteger::Wrong => beside(right, ConstantInteger::Wrong),
        ConstantInteger::Known(0) => right,
        ConstantInteger::Known(_) => beside(right, ConstantInteger::Known(1)),
    }
}
