// The constant that an item gives to a scalar.
ghost use Rattle.std.specs.Prelude.{◌≡◌, IfOk};
ghost use Rattle.typing_types.specs.Types.{class_of};
ghost use Rattle.typing_initialisers.specs.Constants.{integer_at, integer_constant, pointer_constant, constant_at, constant_of};

use crate::constant_expression::{integer_of, pointer_of};
use crate::constant_integer::ConstantInteger;
use crate::constant_pointer::{Address, ConstantPointer};
use clight_unit::Value;
use std::alloc::{AllocError, Global};
use typing_expressions::{Node, assigned};
use typing_types::{CType, Class, Integer};

/// What a scalar begins with.
#[derive(Clone, Copy, Debug, PartialEq, Eq)]
pub enum Constant {
    Byte(u8),
    Word(u32),
    /// A word that points into an object.
    Pointer(Address),
}

fn integer_at(integer: Integer, value: u32) -> Constant
    ensures { result ≡ integer_at integer value }
{
    match integer {
        Integer::Char | Integer::UnsignedChar => Constant::Byte((value % 256) as u8),
        Integer::Int | Integer::UnsignedInt => Constant::Word(value),
    }
}

fn integer_constant(integer: Integer, value: ConstantInteger) -> Option<Constant>
    ensures { result ≡ integer_constant integer value }
{
    match value {
        ConstantInteger::Known(value) => Some(integer_at(integer, value)),
        ConstantInteger::Wrong | ConstantInteger::NotConstant => None,
    }
}

fn pointer_constant(pointer: Option<ConstantPointer>) -> Option<Constant>
    ensures { result ≡ pointer_constant pointer }
{
    match pointer? {
        ConstantPointer::Null => Some(Constant::Word(0)),
        ConstantPointer::At(to) => Some(Constant::Pointer(to)),
    }
}

fn constant_at(class: Class, value: &Value) -> Option<Constant>
    ensures { result ≡ constant_at class value.now }
{
    match class {
        Class::Integer(integer) => { integer_constant(integer, integer_of(&value.expression)) }
        Class::Pointer => pointer_constant(pointer_of(&value.expression)),
        Class::Void | Class::Struct(_) | Class::Array => None,
    }
}

/// The constant that an expression gives to an object of a type. None exactly where it may not be assigned to one, or is no
/// constant, or goes wrong. The only error is want of memory.
pub(crate) fn constant_of(
    alloc: Global,
    to: &CType<'_>,
    node: Node<'_>,
) -> Result<Option<Constant>, AllocError>
    ensures { IfOk result (λ c. c ≡ constant_of to.now node.entry) }
{
    match assigned(alloc, to, node)? {
        Some(value) => Ok(constant_at(to.class(), &value)),
        None => Ok(None),
    }
}
