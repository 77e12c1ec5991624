// Sizes of bases and of arrays.
ghost use Rattle.std.specs.Prelude.{◌≡◌, ◌⊎◌, ◌≤◌, ◌<◌, ◌*◌, ◌==◌, ◌||◌, true, IfSome, IfNone};
ghost use Rattle.std.specs.Option.{SomeIff};
ghost use Rattle.typing_types.specs.Widths.{width_of, largest, scaled, has_zero, IsPast};
ghost use Rattle.typing_types.specs.Sizes.{starred};
ghost use Rattle.typing_types.specs.Structs.{base_size, base_align, struct_of};

use crate::class::{Base, Integer};
use crate::layout::{LARGEST, Layout};
use text_grammar::Number;

fn width_of(integer: Integer) -> u32
    ensures value { result ≡ width_of integer }
    ensures some { 0 < result }
    ensures few { result ≤ 4 }
{
    match integer {
        Integer::Char | Integer::UnsignedChar => 1,
        Integer::Int | Integer::UnsignedInt => 4,
    }
}

fn struct_of(structs: &[Option<Layout>], tag: u32) -> Option<Layout>
    ensures { result ≡ struct_of structs.now tag }
{
    *structs.get(tag as usize)?
}

/// The size of a base without stars. It has none where it is `void` or a struct whose definition has not ended.
fn base_size(structs: &[Option<Layout>], base: Base) -> Option<u32>
    ensures value { result ≡ base_size structs.now base }
    ensures few { IfSome result (λ n. n ≤ largest) }
{
    match base {
        Base::Integer(integer) => Some(width_of(integer)),
        Base::Void => None,
        Base::Struct(tag) => Some(struct_of(structs, tag)?.size()),
    }
}

/// The size of as many pointers to a base as there are stars, with the same exceptions.
pub(crate) fn element_size(structs: &[Option<Layout>], base: Base, stars: u32) -> Option<u32>
    ensures value { result ≡ starred stars (base_size structs.now base) }
    ensures few { IfSome result (λ n. n ≤ largest) }
{
    if stars > 0 {
        Some(4)
    } else {
        base_size(structs, base)
    }
}

/// The alignment of a base without stars, with the same exceptions.
pub(crate) fn base_align(structs: &[Option<Layout>], base: Base) -> Option<u32>
    ensures value { result ≡ base_align structs.now base }
    ensures some { IfSome result (λ n. (0 < n) × (n ≤ 4)) }
{
    match base {
        Base::Integer(integer) => Some(width_of(integer)),
        Base::Void => None,
        Base::Struct(tag) => Some(struct_of(structs, tag)?.align()),
    }
}

/// Whether one of the lengths is 0.
pub(crate) fn has_zero(lengths: &[Number]) -> bool
    ensures { result ≡ has_zero lengths.now }
{
    lengths.iter().any(|length| length.value == 0)
}

// So many elements of a size, where they are no greater than the greatest object.
fn product(size: u32, count: u32) -> Option<u32>
    ensures { SomeIff result (size * count ≤ largest) (size * count) }
{
    let total = u64::from(size) * u64::from(count);
    if total <= u64::from(LARGEST) {
        Some(total as u32)
    } else {
        None
    }
}

// An array of these lengths, of elements of a size.
fn product_of_all(size: u32, lengths: &[Number]) -> Option<u32>
    requires { size ≤ largest }
    ensures some { IfSome result (λ n. (n ≡ scaled size lengths.now) × (n ≤ largest)) }
    ensures none { IfNone result (IsPast size lengths.now) }
{
    let mut total = size;
    for length in lengths {
        total = product(total, length.value)?;
    }
    Some(total)
}

/// An array of this length, whose elements are arrays of the other lengths, of elements of a size.
pub(crate) fn array_size(size: u32, count: u32, inner: &[Number]) -> Option<u32>
    requires { size ≤ largest }
    ensures some { IfSome result (λ n. (n ≡ scaled (size * count) inner.now) × (n ≤ largest)) }
    ensures none { IfNone result ((largest < scaled (size * count) inner.now) ⊎ ((count == 0 || has_zero inner.now) ≡ true)) }
{
    product_of_all(product(size, count)?, inner)
}
