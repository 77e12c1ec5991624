// Sizes, and the layout of a struct's members.
ghost use Rattle.std.specs.Prelude.{◌≡◌, ◌≤◌, ◌<◌, IfSome, IfNone};
ghost use Rattle.std.specs.Option.{SomeIff};
ghost use Rattle.typing_types.specs.Widths.{largest};

use std::marker::Model;

/// The greatest size of an object, of an element of an array and of a struct, in bytes.
pub const LARGEST: u32 = 8_388_608;

/// A size of a type.
#[derive(Clone, Copy, Debug, PartialEq, Eq)]
pub enum Size {
    /// So many bytes, at most `LARGEST`.
    Known(u32),
    /// It, or the elements of an array in it, are greater than `LARGEST`.
    TooLarge,
    /// It has none: `void`, an array of unknown length, or a struct whose definition has not ended.
    Unknown,
}

/// The size and alignment of a struct, or of what stands in it so far, in bytes. Contracts see `Laid` of `specs/Laid.antt`.
#[derive(Clone, Copy, Debug, PartialEq, Eq)]
pub struct Layout {
    size: u32,
    align: u32,
}

impl Model for Layout {
    ghost use Rattle.std.specs.Prelude.{◌<◌, ◌≤◌};
    ghost use Rattle.typing_types.specs.Laid.{Laid};

    ghost Value = { Laid };

    ghost view = { λ l. record { size = l.size; align = l.align } };

    ghost inverse = { λ l. record { size = l.size; align = l.align } };

    ghost invariant = { λ l. (l.size ≤ 8388608) × ((0 < l.align) × (l.align ≤ 4)) };
}

impl Layout {
    ghost use Rattle.typing_types.specs.Laid.{laid};
    ghost use Rattle.typing_types.specs.Structs.{offset_behind, end_behind, laid_behind, struct_size, struct_laid};

    /// A size and an alignment.
    pub fn new(size: u32, align: u32) -> Layout
        requires small { size ≤ largest }
        requires aligned { 0 < align }
        requires alignment_small { align ≤ 4 }
        ensures { result ≡ laid size align }
    {
        Layout { size, align }
    }

    /// A struct before its first member.
    pub fn empty() -> Layout
        ensures { result ≡ laid 0 1 }
    {
        Layout { size: 0, align: 1 }
    }

    pub fn size(&self) -> u32
        ensures value { result ≡ self.now.size }
        ensures small { result ≤ largest }
    {
        self.size
    }

    pub fn align(&self) -> u32
        ensures value { result ≡ self.now.align }
        ensures some { 0 < result }
        ensures few { result ≤ 4 }
    {
        self.align
    }

    /// Where a member begins behind those that stand here so far. None where that is past the greatest size.
    pub fn offset_of(&self, member: &Layout) -> Option<u32>
        ensures { SomeIff result (offset_behind self.now member.now ≤ largest) (offset_behind self.now member.now) }
    {
        let offset = self.size.next_multiple_of(member.align);
        if offset <= LARGEST {
            Some(offset)
        } else {
            None
        }
    }

    /// What stands here with one member more. None exactly where that ends past the greatest size.
    pub fn with(&self, member: &Layout) -> Option<Layout>
        ensures some { IfSome result (λ l. l ≡ laid_behind self.now member.now) }
        ensures none { IfNone result (largest < end_behind self.now member.now) }
    {
        let size = self.size.next_multiple_of(member.align) + member.size;
        if size > LARGEST {
            return None;
        }
        Some(Layout {
            size,
            align: self.align.max(member.align),
        })
    }

    /// The struct of the members that stand here. None exactly where it is greater than the greatest size.
    pub fn ended(&self) -> Option<Layout>
        ensures some { IfSome result (λ l. l ≡ struct_laid self.now) }
        ensures none { IfNone result (largest < struct_size self.now) }
    {
        let size = self.size.next_multiple_of(self.align);
        if size > LARGEST {
            return None;
        }
        Some(Layout {
            size,
            align: self.align,
        })
    }
}
