// The constants of an initialiser, by its typed expression.
ghost use Rattle.std.specs.Prelude.{◌≡◌};
ghost use Rattle.cc_base.specs.Words.{add32};
ghost use Rattle.block_mem.specs.Arithmetic.{minus32, product32};
ghost use Rattle.typing_initialisers.specs.ConstantExpressions.{known, known_test, placed, integer_of, pointer_of, shifted, by_integer, moved, null_of, moved_pointer, at_of, name_of, element};

use crate::constant_integer::{self, ConstantInteger};
use crate::constant_pointer::{Address, ConstantPointer};
use block_mem::{Element, Op};
use clight_unit::{Expression, Place, Test};

/// What an expression comes to as a constant integer: it is built of literals, sizes, integer operators and casts.
#[cycle(integer)]
pub fn integer_of(expression: &Expression) -> ConstantInteger
    ensures { result ≡ integer_of expression.now }
{
    match expression {
        Expression::Constant(value) => ConstantInteger::Known(*value),
        Expression::Unary(op, operand) => constant_integer::unary(op, integer_of(operand.get())),
        Expression::Binary(op, left, right) => {
            constant_integer::binary(op, integer_of(left.get()), integer_of(right.get()))
        }
        Expression::Both(left, right) => constant_integer::both(
            test_of(left.get()),
            test_of(right.get()),
        ),
        Expression::Either(left, right) => {
            constant_integer::either(test_of(left.get()), test_of(right.get()))
        }
        Expression::Temporary(_) | Expression::Load(..) => ConstantInteger::NotConstant,
        Expression::Decayed(_) | Expression::Address(_) => ConstantInteger::NotConstant,
    }
}

#[cycle(integer)]
fn test_of(test: &Test) -> ConstantInteger
    ensures { result ≡ known_test test.now }
{
    constant_integer::test(test.differs, integer_of(&test.value))
}

fn forward(address: Address, bytes: u32) -> Address
    ensures { result ≡ shifted add32 bytes address }
{
    Address {
        symbol: address.symbol,
        plus: address.plus.wrapping_add(bytes),
    }
}

fn backward(address: Address, bytes: u32) -> Address
    ensures { result ≡ shifted minus32 bytes address }
{
    Address {
        symbol: address.symbol,
        plus: address.plus.wrapping_sub(bytes),
    }
}

// A pointer plus so many elements.
fn plus_elements(
    pointer: ConstantPointer,
    count: ConstantInteger,
    size: Element,
) -> Option<ConstantPointer>
    ensures { result ≡ moved (λ n a. shifted add32 (product32 n size) a) count pointer }
{
    match (pointer, count) {
        (ConstantPointer::At(address), ConstantInteger::Known(n)) => {
            Some(ConstantPointer::At(forward(address, n.wrapping_mul(size.size()))))
        }
        _ => None,
    }
}

// A pointer minus so many elements.
fn minus_elements(
    pointer: ConstantPointer,
    count: ConstantInteger,
    size: Element,
) -> Option<ConstantPointer>
    ensures { result ≡ moved (λ n a. shifted minus32 (product32 n size) a) count pointer }
{
    match (pointer, count) {
        (ConstantPointer::At(address), ConstantInteger::Known(n)) => {
            Some(ConstantPointer::At(backward(address, n.wrapping_mul(size.size()))))
        }
        _ => None,
    }
}

/// What an expression of pointer type comes to as a constant pointer: the literal 0, `&` of an object's name with constant
/// indices of arrays and members behind it, or an array's name, plus or minus constants, with casts. None where it is no
/// constant, and where it goes wrong.
pub fn pointer_of(expression: &Expression) -> Option<ConstantPointer>
    ensures { result ≡ pointer_of expression.now }
{
    match expression {
        Expression::Constant(0) => Some(ConstantPointer::Null),
        Expression::Unary(Op::Keep, operand) => pointer_of(operand.get()),
        Expression::Binary(Op::PtrAdd(size), pointer, count) => {
            plus_elements(pointer_of(pointer.get())?, integer_of(count.get()), *size)
        }
        Expression::Binary(Op::PtrSub(size), pointer, count) => {
            minus_elements(pointer_of(pointer.get())?, integer_of(count.get()), *size)
        }
        Expression::Address(place) => Some(ConstantPointer::At(address_of(place.get())?)),
        Expression::Decayed(place) => Some(ConstantPointer::At(name_of(place.get())?)),
        _ => None,
    }
}

// Where an object is whose name alone is the place.
fn name_of(place: &Place) -> Option<Address>
    ensures { result ≡ name_of (placed place.now) }
{
    match place {
        Place::Object(symbol) => Some(Address {
            symbol: *symbol,
            plus: 0,
        }),
        _ => None,
    }
}

// Where a place is, where that is constant.
#[cycle(place)]
fn address_of(place: &Place) -> Option<Address>
    ensures { result ≡ (placed place.now).at }
{
    match place {
        Place::Object(symbol) => Some(Address {
            symbol: *symbol,
            plus: 0,
        }),
        Place::Index(size, array, index) => {
            let first = array_of(array.get())?;
            match integer_of(index.get()) {
                ConstantInteger::Known(n) => Some(forward(first, n.wrapping_mul(size.size()))),
                _ => None,
            }
        }
        Place::Member(offset, whole) => Some(forward(address_of(whole.get())?, *offset)),
        Place::Local(_) | Place::Deref(_) | Place::Arrow(..) => None,
    }
}

// Where the array is that an expression names.
#[cycle(place)]
fn array_of(expression: &Expression) -> Option<Address>
    ensures { result ≡ (known expression.now).array }
{
    match expression {
        Expression::Decayed(place) => address_of(place.get()),
        _ => None,
    }
}
