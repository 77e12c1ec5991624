// When types are one.
ghost use Rattle.std.specs.Prelude.{◌≡◌, map, Some, ℕ, Option, true};
ghost use Rattle.text_grammar.specs.declared.tree.Number.{Number as Written};
ghost use Rattle.typing_types.specs.Types.{Derived, lengths_of};
ghost use Rattle.typing_types.specs.Same.{same_integer, same_base, same_lengths, agreeing_lengths, same_type};

use crate::class::{Base, Extent, Integer};
use text_grammar::Number;

fn is_same_integer(left: Integer, right: Integer) -> bool
    ensures { result ≡ same_integer left right }
{
    match (left, right) {
        (Integer::Char, Integer::Char) => true,
        (Integer::UnsignedChar, Integer::UnsignedChar) => true,
        (Integer::Int, Integer::Int) => true,
        (Integer::UnsignedInt, Integer::UnsignedInt) => true,
        _ => false,
    }
}

pub(crate) fn is_same_base(left: Base, right: Base) -> bool
    ensures { result ≡ same_base left right }
{
    match (left, right) {
        (Base::Integer(first), Base::Integer(second)) => is_same_integer(first, second),
        (Base::Void, Base::Void) => true,
        (Base::Struct(tag), Base::Struct(other)) => tag == other,
        _ => false,
    }
}

fn are_same_numbers(left: &[Number], right: &[Number]) -> bool
    ensures { result ≡ same_lengths (map (λ (n : Written). Some n.value) left.now) (map (λ (n : Written). Some n.value) right.now) }
{
    match left {
        [] => matches!(right, []),
        [first, left @ ..] => match right {
            [] => false,
            [second, right @ ..] => first.value == second.value && are_same_numbers(left, right),
        },
    }
}

pub(crate) fn are_same_lengths(
    left: Extent,
    left_rest: &[Number],
    right: Extent,
    right_rest: &[Number],
) -> bool
    ensures { result ≡ same_lengths (lengths_of left left_rest.now) (lengths_of right right_rest.now) }
{
    match (left, right) {
        (Extent::Absent, Extent::Absent) => true,
        (Extent::Unknown, Extent::Unknown) => are_same_numbers(left_rest, right_rest),
        (Extent::Known(first), Extent::Known(second)) => {
            first == second && are_same_numbers(left_rest, right_rest)
        }
        _ => false,
    }
}

pub(crate) fn are_agreeing_lengths(
    left: Extent,
    left_rest: &[Number],
    right: Extent,
    right_rest: &[Number],
) -> bool
    ensures { result ≡ agreeing_lengths (lengths_of left left_rest.now) (lengths_of right right_rest.now) }
{
    match (left, right) {
        (Extent::Absent, Extent::Absent) => true,
        (Extent::Absent, _) | (_, Extent::Absent) => false,
        (Extent::Known(first), Extent::Known(second)) => {
            first == second && are_same_numbers(left_rest, right_rest)
        }
        _ => are_same_numbers(left_rest, right_rest),
    }
}

/// Types that are told to be one are one, and a type is one with itself.
pub fn same_types_are_one()
    ensures one { (a b : Derived) → same_type a b ≡ true → a ≡ b }
    ensures itself { (a : Derived) → same_type a a ≡ true }
{}
