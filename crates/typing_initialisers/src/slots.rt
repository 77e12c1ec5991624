// The parts of an array or a struct that the items of a list fill.
ghost use Rattle.std.specs.Prelude.{◌≡◌, ◌+◌, ◌*◌, unwrap_or, IfOk};
ghost use Rattle.typing_expressions.specs.Conversions.{needed_size};
ghost use Rattle.typing_initialisers.specs.Slots.{has_room, slots_of, slot_in, is_character, has_characters, takes_string};

use std::alloc::AllocError;
use typing_expressions::needed_size;
use typing_scopes::Scope;
use typing_types::{CType, Class, Integer, Layout};

/// A part of an object: its type, and where it stands, in bytes.
#[derive(Drop)]
pub(crate) struct Slot<'t> {
    pub ctype: CType<'t>,
    pub at: usize,
}

/// The parts of an object that stands at a place.
#[derive(Drop)]
pub(crate) enum Slots<'t> {
    /// Elements of this type and size, as many as the length says where it is known.
    Elements(CType<'t>, u32, Option<u32>, usize),
    /// The members of the struct of this tag.
    Members(u32, usize),
}

/// Whether an array has an element of this number: one whose length is not known has them all.
pub(crate) fn has_room(length: Option<u32>, index: usize) -> bool
    ensures { result ≡ has_room length index }
{
    match length {
        Some(length) => index < length as usize,
        None => true,
    }
}

// The size of an element, and 0 where it is not known.
fn size_of(layouts: &[Option<Layout>], element: &CType<'_>) -> u32
    ensures { result ≡ unwrap_or (needed_size layouts.now element.now) 0 }
{
    match needed_size(layouts, element) {
        Some(size) => size.size(),
        None => 0,
    }
}

/// The parts of an object of this type at this place. None exactly where it is a scalar, or has no parts.
pub(crate) fn slots_of<'t>(scope: &Scope<'t>, ctype: &CType<'t>, at: usize) -> Option<Slots<'t>>
    ensures { result ≡ slots_of scope.now ctype.now at }
{
    match ctype.class() {
        Class::Array => {
            let element = ctype.element()?;
            let size = size_of(scope.layouts(), &element);
            Some(Slots::Elements(element, size, ctype.length(), at))
        }
        Class::Struct(tag) => Some(Slots::Members(tag, at)),
        Class::Integer(_) | Class::Void | Class::Pointer => None,
    }
}

// A place that is so many elements of a size behind another. The only error is that it cannot be counted, which comes to want of
// memory.
fn behind(at: usize, index: usize, size: usize) -> Result<usize, AllocError>
    ensures { IfOk result (λ n. n ≡ at + index * size) }
{
    let Some(bytes) = index.checked_mul(size) else {
        return Err(AllocError);
    };
    match at.checked_add(bytes) {
        Some(sum) => Ok(sum),
        None => Err(AllocError),
    }
}

impl<'t> Slots<'t> {
    /// The part of this number. None exactly where there is none. The only error is want of memory.
    pub(crate) fn slot(
        &self,
        scope: &Scope<'t>,
        index: usize,
    ) -> Result<Option<Slot<'t>>, AllocError>
        ensures { IfOk result (λ s. s ≡ slot_in scope.now self.now index) }
    {
        match self {
            Slots::Elements(element, size, length, at) => {
                if !has_room(*length, index) {
                    return Ok(None);
                }
                Ok(Some(Slot {
                    ctype: element.copy(),
                    at: behind(*at, index, *size as usize)?,
                }))
            }
            Slots::Members(tag, at) => match scope.member_at(*tag, index) {
                Some(member) => Ok(Some(Slot {
                    ctype: member.ctype.copy(),
                    at: behind(*at, 1, member.offset as usize)?,
                })),
                None => Ok(None),
            },
        }
    }
}

fn is_character(class: Class) -> bool
    ensures { result ≡ is_character class }
{
    match class {
        Class::Integer(Integer::Char | Integer::UnsignedChar) => true,
        _ => false,
    }
}

fn has_characters(ctype: &CType<'_>) -> bool
    ensures { result ≡ has_characters ctype.now }
{
    match ctype.element() {
        Some(element) => is_character(element.class()),
        None => false,
    }
}

/// Whether an object of this type takes a string: an array of characters into which it fits without its closing zero.
pub(crate) fn takes_string(ctype: &CType<'_>, bytes: &[u8]) -> bool
    ensures { result ≡ takes_string ctype.now bytes.now }
{
    let Class::Array = ctype.class() else {
        return false;
    };
    if !has_characters(ctype) {
        return false;
    }
    match ctype.length() {
        Some(length) => bytes.len() <= length as usize,
        None => true,
    }
}
