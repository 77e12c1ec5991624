// The types that calls compare.
ghost use Rattle.std.specs.Prelude.{◌≡◌};
ghost use Rattle.clight_sem.specs.Functions.{same_base, same_type, same_types, same_signature};

use clight_unit::{Signature, ValueBase, ValueType};

pub fn same_base(left: &ValueBase, right: &ValueBase) -> bool
    ensures { result ≡ same_base left.now right.now }
{
    match (left, right) {
        (ValueBase::Int, ValueBase::Int)
        | (ValueBase::Char, ValueBase::Char)
        | (ValueBase::UnsignedInt, ValueBase::UnsignedInt)
        | (ValueBase::UnsignedChar, ValueBase::UnsignedChar)
        | (ValueBase::Void, ValueBase::Void) => true,
        (ValueBase::Struct(tag), ValueBase::Struct(other)) => tag.as_slice() == other.as_slice(),
        _ => false,
    }
}

fn same_type(left: &ValueType, right: &ValueType) -> bool
    ensures { result ≡ same_type left.now right.now }
{
    same_base(&left.base, &right.base) && left.stars == right.stars
}

fn same_types(left: &[ValueType], right: &[ValueType]) -> bool
    ensures { result ≡ same_types left.now right.now }
{
    if left.len() != right.len() {
        return false;
    }
    'types: for index in 0..left.len() {
        if !same_type(&left[index], &right[index]) {
            return false;
        }
    }
    true
}

/// Whether two functions have the same result and the same parameters. Structs are compared by their tags.
pub fn same_signature(left: &Signature, right: &Signature) -> bool
    ensures { result ≡ same_signature left.now right.now }
{
    same_type(&left.result, &right.result)
        && same_types(left.parameters.as_slice(), right.parameters.as_slice())
}
