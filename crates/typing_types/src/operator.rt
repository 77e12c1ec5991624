// Which operands an operator takes, and the type of its result.
ghost use Rattle.std.specs.Prelude.{◌≡◌, cond, Some, None};
ghost use Rattle.typing_types.specs.Operators.{promoted, common, integer_of, is_integer, is_pointer, is_scalar, is_void, is_void_pointer, negated, pointed, integers, shifted, moved, moved_second, pointers, beside_any, with_any, tests, ordered, compared, added, subtracted, fit_of, is_comparison, int, result_of};

use crate::class::{Base, Class, Integer};
use crate::ctype::CType;
use text_grammar::BinaryOp;

/// An operand. An array stands here as a pointer to its first element.
#[derive(Drop)]
pub struct Operand<'t> {
    pub ctype: CType<'t>,
    /// It is the literal 0.
    pub is_null: bool,
}

/// How a binary operator takes its operands.
#[derive(Clone, Copy, Debug, PartialEq, Eq)]
pub enum Fit {
    /// Both are integers and become this type; of a shift, the first.
    Integers(Integer),
    /// The first is a pointer, and the second counts its elements.
    PointerFirst,
    /// The second is a pointer, and the first counts its elements.
    PointerSecond,
    /// Both are pointers, or one of them is the literal 0.
    Pointers,
    /// Both are conditions.
    Tests,
}

fn promoted(integer: Integer) -> Integer
    ensures { result ≡ promoted integer }
{
    match integer {
        Integer::UnsignedInt => Integer::UnsignedInt,
        Integer::Char | Integer::UnsignedChar | Integer::Int => Integer::Int,
    }
}

fn common(left: Integer, right: Integer) -> Integer
    ensures { result ≡ common left right }
{
    match left {
        Integer::UnsignedInt => Integer::UnsignedInt,
        Integer::Char | Integer::UnsignedChar | Integer::Int => promoted(right),
    }
}

/// `int`.
pub fn int<'t>() -> CType<'t>
    ensures { result ≡ int }
{
    CType::plain(Base::Integer(Integer::Int), 0)
}

impl<'t> CType<'t> {
    /// Which integer type it is, if it is one.
    pub fn integer(&self) -> Option<Integer>
        ensures { result ≡ integer_of self.now }
    {
        match self.class() {
            Class::Integer(integer) => Some(integer),
            _ => None,
        }
    }

    pub fn is_integer(&self) -> bool
        ensures { result ≡ is_integer self.now }
    {
        matches!(self.class(), Class::Integer(_))
    }

    pub fn is_pointer(&self) -> bool
        ensures { result ≡ is_pointer self.now }
    {
        matches!(self.class(), Class::Pointer)
    }

    /// Whether it is an integer or a pointer, as a condition must be.
    pub fn is_scalar(&self) -> bool
        ensures { result ≡ is_scalar self.now }
    {
        self.is_integer() || self.is_pointer()
    }

    pub fn is_void(&self) -> bool
        ensures { result ≡ is_void self.now }
    {
        matches!(self.class(), Class::Void)
    }

    pub fn is_void_pointer(&self) -> bool
        ensures { result ≡ is_void_pointer self.now }
    {
        if !self.is_pointer() {
            return false;
        }
        match self.element() {
            Some(element) => element.is_void(),
            None => false,
        }
    }

    /// The type of `-e` and `~e`. None exactly where they do not take such an operand.
    pub fn negated(&self) -> Option<CType<'t>>
        ensures { result ≡ negated self.now }
    {
        Some(CType::plain(Base::Integer(promoted(self.integer()?)), 0))
    }

    /// The type of `*e` and `e[i]`. None exactly where they do not take such a pointer.
    pub fn pointed(&self) -> Option<CType<'t>>
        ensures { result ≡ pointed self.now }
    {
        if !self.is_pointer() {
            return None;
        }
        let element = self.element()?;
        if element.is_void() {
            None
        } else {
            Some(element)
        }
    }
}

fn integers(left: &Operand<'_>, right: &Operand<'_>) -> Option<Fit>
    ensures { result ≡ integers left.now right.now }
{
    let first = left.ctype.integer()?;
    let second = right.ctype.integer()?;
    Some(Fit::Integers(common(first, second)))
}

fn shifted(left: &Operand<'_>, right: &Operand<'_>) -> Option<Fit>
    ensures { result ≡ shifted left.now right.now }
{
    let first = left.ctype.integer()?;
    let _count = right.ctype.integer()?;
    Some(Fit::Integers(promoted(first)))
}

fn fit_if(holds: bool, fit: Fit) -> Option<Fit>
    ensures { result ≡ cond holds (Some fit) None }
{
    if holds { Some(fit) } else { None }
}

fn moved(left: &Operand<'_>, right: &Operand<'_>) -> Option<Fit>
    ensures { result ≡ moved left.now right.now }
{
    fit_if(
        left.ctype.is_pointer() && right.ctype.is_integer(),
        Fit::PointerFirst,
    )
}

fn moved_second(left: &Operand<'_>, right: &Operand<'_>) -> Option<Fit>
    ensures { result ≡ moved_second left.now right.now }
{
    fit_if(
        left.ctype.is_integer() && right.ctype.is_pointer(),
        Fit::PointerSecond,
    )
}

fn pointers(left: &Operand<'_>, right: &Operand<'_>) -> Option<Fit>
    ensures { result ≡ pointers left.now right.now }
{
    fit_if(
        left.ctype.is_pointer() && left.ctype.is_same(&right.ctype),
        Fit::Pointers,
    )
}

fn beside_any(left: &Operand<'_>, right: &Operand<'_>) -> bool
    ensures { result ≡ beside_any left.now right.now }
{
    left.ctype.is_pointer() && (right.is_null || right.ctype.is_void_pointer())
}

fn with_any(left: &Operand<'_>, right: &Operand<'_>) -> Option<Fit>
    ensures { result ≡ with_any left.now right.now }
{
    fit_if(
        beside_any(left, right) || beside_any(right, left),
        Fit::Pointers,
    )
}

fn tests(left: &Operand<'_>, right: &Operand<'_>) -> Option<Fit>
    ensures { result ≡ tests left.now right.now }
{
    fit_if(
        left.ctype.is_scalar() && right.ctype.is_scalar(),
        Fit::Tests,
    )
}

fn ordered(left: &Operand<'_>, right: &Operand<'_>) -> Option<Fit>
    ensures { result ≡ ordered left.now right.now }
{
    integers(left, right).or(pointers(left, right))
}

fn compared(left: &Operand<'_>, right: &Operand<'_>) -> Option<Fit>
    ensures { result ≡ compared left.now right.now }
{
    ordered(left, right).or(with_any(left, right))
}

fn added(left: &Operand<'_>, right: &Operand<'_>) -> Option<Fit>
    ensures { result ≡ added left.now right.now }
{
    integers(left, right).or(moved(left, right).or(moved_second(left, right)))
}

fn subtracted(left: &Operand<'_>, right: &Operand<'_>) -> Option<Fit>
    ensures { result ≡ subtracted left.now right.now }
{
    integers(left, right).or(moved(left, right).or(pointers(left, right)))
}

/// How a binary operator takes its operands. None exactly where it does not take them.
pub fn fit_of(op: BinaryOp, left: &Operand<'_>, right: &Operand<'_>) -> Option<Fit>
    ensures { result ≡ fit_of op left.now right.now }
{
    match op {
        BinaryOp::Mul | BinaryOp::Div | BinaryOp::Rem => integers(left, right),
        BinaryOp::And | BinaryOp::Or | BinaryOp::Xor => integers(left, right),
        BinaryOp::Shl | BinaryOp::Shr => shifted(left, right),
        BinaryOp::Add => added(left, right),
        BinaryOp::Sub => subtracted(left, right),
        BinaryOp::Lt | BinaryOp::Gt | BinaryOp::Le | BinaryOp::Ge => ordered(left, right),
        BinaryOp::Eq | BinaryOp::Ne => compared(left, right),
        BinaryOp::AndAnd | BinaryOp::OrOr => tests(left, right),
    }
}

fn is_comparison(op: BinaryOp) -> bool
    ensures { result ≡ is_comparison op }
{
    matches!(
        op,
        BinaryOp::Lt | BinaryOp::Gt | BinaryOp::Le | BinaryOp::Ge | BinaryOp::Eq | BinaryOp::Ne
    )
}

/// The type of a binary operator's result, where it takes its operands so.
pub fn result_of<'t>(op: BinaryOp, fit: Fit, left: &CType<'t>, right: &CType<'t>) -> CType<'t>
    ensures { result ≡ result_of op fit left.now right.now }
{
    match fit {
        Fit::Integers(_) if is_comparison(op) => int(),
        Fit::Integers(integer) => CType::plain(Base::Integer(integer), 0),
        Fit::PointerFirst => left.copy(),
        Fit::PointerSecond => right.copy(),
        Fit::Pointers | Fit::Tests => int(),
    }
}
