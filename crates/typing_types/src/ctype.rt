// A type, cheap to copy and to compare.
ghost use Rattle.std.specs.Prelude.{◌≡◌, ◌<◌, ◌≤◌, IfSome, IfNone, IfOk};
ghost use Rattle.typing_types.specs.Types.{plain, declared, with_length, length_of, class_of, pointer_to, element_of, is_of_structs, is_of_void, is_empty_among, IsDeep};
ghost use Rattle.typing_types.specs.Sizes.{IsSize, align_of, is_unfinished};
ghost use Rattle.typing_types.specs.Same.{same_type, agrees};

use crate::class::{Base, Class, Extent};
use crate::layout::{Layout, Size};
use crate::{same, sizes};
use std::alloc::AllocError;
use std::marker::Model;
use text_grammar::Number;

/// As many stars as a text has. The only error is that there are more than 2^32 - 1, which comes to want of memory.
pub fn stars_of(stars: usize) -> Result<u32, AllocError>
    ensures { IfOk result (λ n. n ≡ stars) }
{
    if stars > u32::MAX as usize {
        return Err(AllocError);
    }
    Ok(stars as u32)
}

/// A type, as a declaration derives it from what it begins with. The lengths of an array are those of the declaration.
/// Contracts see `Derived` of `specs/Types.antt`.
#[derive(Drop)]
pub struct CType<'t> {
    base: Base,
    stars: u32,
    extent: Extent,
    // the lengths behind the outermost one
    rest: &'t [Number],
    pointers: u32,
}

impl<'t> Model for CType<'t> {
    ghost use Rattle.typing_types.specs.Types.{Derived, lengths_of};

    ghost Value = { Derived };

    ghost view = { λ t. record { base = t.base; stars = t.stars; lengths = lengths_of t.extent t.rest.now; pointers = t.pointers } };
}

impl<'t> CType<'t> {
    /// As many pointers to a base as there are stars.
    pub fn plain(base: Base, stars: u32) -> CType<'t>
        ensures { result ≡ plain base stars }
    {
        CType {
            base,
            stars,
            extent: Extent::Absent,
            rest: &[],
            pointers: 0,
        }
    }

    /// What a declarator says: stars before the name and lengths behind it, in front of which there may be `[ ]`.
    pub fn declared(base: Base, stars: u32, is_open: bool, lengths: &'t [Number]) -> CType<'t>
        ensures { result ≡ declared base stars is_open lengths.now }
    {
        if is_open {
            return CType {
                base,
                stars,
                extent: Extent::Unknown,
                rest: lengths,
                pointers: 0,
            };
        }
        match lengths {
            [] => CType::plain(base, stars),
            [first, rest @ ..] => CType {
                base,
                stars,
                extent: Extent::Known(first.value),
                rest,
                pointers: 0,
            },
        }
    }

    /// The same type.
    pub fn copy(&self) -> CType<'t>
        ensures { result ≡ self.now }
    {
        CType {
            base: self.base,
            stars: self.stars,
            extent: self.extent,
            rest: self.rest,
            pointers: self.pointers,
        }
    }

    /// The same array of a length that has become known.
    pub fn with_length(&self, length: u32) -> CType<'t>
        ensures { result ≡ with_length length self.now }
    {
        let mut known = self.copy();
        if self.extent != Extent::Absent {
            known.extent = Extent::Known(length);
        }
        known
    }

    /// The outermost length of an array, where it is known. A pointer to an array has that of the array.
    pub fn length(&self) -> Option<u32>
        ensures { result ≡ length_of self.now }
    {
        match self.extent {
            Extent::Known(length) => Some(length),
            Extent::Absent | Extent::Unknown => None,
        }
    }

    /// What it is.
    pub fn class(&self) -> Class
        ensures { result ≡ class_of self.now }
    {
        if self.extent != Extent::Absent {
            return if self.pointers == 0 {
                Class::Array
            } else {
                Class::Pointer
            };
        }
        if self.stars > 0 {
            return Class::Pointer;
        }
        match self.base {
            Base::Integer(integer) => Class::Integer(integer),
            Base::Void => Class::Void,
            Base::Struct(tag) => Class::Struct(tag),
        }
    }

    /// What a pointer points to, or the elements of an array. None exactly where it is neither.
    pub fn element(&self) -> Option<CType<'t>>
        ensures { result ≡ element_of self.now }
    {
        let mut inner = self.copy();
        match self.extent {
            Extent::Absent => {
                inner.stars = self.stars.checked_sub(1)?;
                inner.pointers = 0;
            }
            _ if self.pointers > 0 => inner.pointers -= 1,
            _ => match self.rest {
                [] => inner.extent = Extent::Absent,
                [first, rest @ ..] => {
                    inner.extent = Extent::Known(first.value);
                    inner.rest = rest;
                }
            },
        }
        Some(inner)
    }

    /// A pointer to it. None only where one pointer more cannot be counted.
    pub fn pointer_to(&self) -> Option<CType<'t>>
        ensures some { IfSome result (λ t. t ≡ pointer_to self.now) }
        ensures none { IfNone result (IsDeep self.now) }
    {
        let mut outer = self.copy();
        if self.extent == Extent::Absent {
            outer.stars = self.stars.checked_add(1)?;
            outer.pointers = 0;
        } else {
            outer.pointers = self.pointers.checked_add(1)?;
        }
        Some(outer)
    }

    /// Whether it is a struct or an array of structs, so that its size waits for the struct's definition.
    pub fn is_of_structs(&self) -> bool
        ensures { result ≡ is_of_structs self.now }
    {
        match self.base {
            Base::Struct(_) => self.stars == 0 && self.pointers == 0,
            Base::Integer(_) | Base::Void => false,
        }
    }

    /// Whether it is `void` or an array of it, so that no object may have this type.
    pub fn is_of_void(&self) -> bool
        ensures { result ≡ is_of_void self.now }
    {
        match self.base {
            Base::Void => self.stars == 0 && self.pointers == 0,
            Base::Integer(_) | Base::Struct(_) => false,
        }
    }

    /// Whether one of its lengths is 0.
    pub fn has_empty_length(&self) -> bool
        ensures { result ≡ is_empty_among self.now.lengths }
    {
        match self.extent {
            Extent::Absent => false,
            Extent::Unknown => sizes::has_zero(self.rest),
            Extent::Known(length) => length == 0 || sizes::has_zero(self.rest),
        }
    }

    /// Its size. Structs are known by the numbers of their tags.
    pub fn size(&self, structs: &[Option<Layout>]) -> Size
        ensures { IsSize structs.now self.now result }
    {
        if self.pointers > 0 {
            return Size::Known(4);
        }
        let Some(size) = sizes::element_size(structs, self.base, self.stars) else {
            return Size::Unknown;
        };
        match self.extent {
            Extent::Absent => Size::Known(size),
            Extent::Unknown => Size::Unknown,
            Extent::Known(count) => match sizes::array_size(size, count, self.rest) {
                Some(all) => Size::Known(all),
                None => Size::TooLarge,
            },
        }
    }

    /// Its alignment in bytes: an array stands where its elements do. None exactly where it, or what an array has as its
    /// elements, is `void` or a struct whose definition has not ended.
    pub fn align(&self, structs: &[Option<Layout>]) -> Option<u32>
        ensures value { result ≡ align_of structs.now self.now }
        ensures some { IfSome result (λ n. (0 < n) × (n ≤ 4)) }
    {
        if self.pointers > 0 || self.stars > 0 {
            Some(4)
        } else {
            sizes::base_align(structs, self.base)
        }
    }

    /// Whether it is a struct whose definition has not ended, or an array of it, so that its size waits for that end. Structs are
    /// known by the numbers of their tags.
    pub fn is_unfinished(&self, structs: &[Option<Layout>]) -> bool
        ensures { result ≡ is_unfinished structs.now self.now }
    {
        self.is_of_structs() && self.align(structs).is_none()
    }

    /// Whether two types are one.
    pub fn is_same(&self, other: &CType<'_>) -> bool
        ensures { result ≡ same_type self.now other.now }
    {
        same::is_same_base(self.base, other.base)
            && self.stars == other.stars
            && self.pointers == other.pointers
            && same::are_same_lengths(self.extent, self.rest, other.extent, other.rest)
    }

    /// Whether declarations with these types may be of one name: an unknown length agrees with any.
    pub fn agrees(&self, other: &CType<'_>) -> bool
        ensures { result ≡ agrees self.now other.now }
    {
        same::is_same_base(self.base, other.base)
            && self.stars == other.stars
            && self.pointers == other.pointers
            && same::are_agreeing_lengths(self.extent, self.rest, other.extent, other.rest)
    }
}
