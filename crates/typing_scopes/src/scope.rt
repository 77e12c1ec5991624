// What names mean at a place.
ghost use Rattle.std.specs.Prelude.{◌≡◌, option_copied, is_some, IfOk};
ghost use Rattle.typing_scopes.specs.Tables.{found};
ghost use Rattle.typing_scopes.specs.Names.{entity_of, declared_of, tag_of, is_ended, member_of, member_at, base_of, plain_of};

use crate::entity::{Declared, Entity, Member};
use crate::table::Table;
use sqlite_items::Items;
use std::alloc::AllocError;
use std::marker::Model;
use text_grammar::BaseKind;
use typing_types::{Base, CType, Integer, Layout, stars_of};

/// What names mean at a place, and what is known of structs there. Contracts see `Visible` of `specs/Visible.antt`.
#[derive(Drop)]
pub struct Scope<'t> {
    pub(crate) own: Table<'t, Entity<'t>>,
    pub(crate) names: Table<'t, Declared<'t>>,
    pub(crate) built_in: Table<'t, Entity<'t>>,
    // The tags, and whether the definitions of their structs have ended.
    pub(crate) tags: Table<'t, bool>,
    pub(crate) layouts: Items<Option<Layout>>,
    pub(crate) members: Items<Table<'t, Member<'t>>>,
}

impl<'t> Model for Scope<'t> {
    ghost use Rattle.std.specs.Prelude.{◌<◌, ◌≤◌, ◌^◌, length};
    ghost use Rattle.typing_scopes.specs.Visible.{Visible};

    ghost Value = { Visible };

    ghost view = { λ s. record { own = s.own; names = s.names; built_in = s.built_in; tags = s.tags; layouts = s.layouts; members = s.members } };

    ghost invariant = { λ s. (length s.tags < 2 ^ 32) × ((length s.tags ≤ length s.layouts) × (length s.tags ≤ length s.members)) };
}

impl<'t> Scope<'t> {
    /// What a name means, if it means anything.
    pub fn entity(&self, name: &[u8]) -> Option<&Entity<'t>>
        ensures { option_copied result ≡ entity_of self.now name.now }
    {
        if let Some(entity) = self.own.get(name) {
            return Some(entity);
        }
        if let Some(declared) = self.names.get(name) {
            return Some(&declared.entity);
        }
        self.built_in.get(name)
    }

    /// What the declarations of a name at file scope say of it, if it has one.
    pub fn declared(&self, name: &[u8]) -> Option<&Declared<'t>>
        ensures { option_copied result ≡ declared_of self.now name.now }
    {
        self.names.get(name)
    }

    /// Whether a parameter or local of the current function has this name.
    pub fn is_own(&self, name: &[u8]) -> bool
        ensures { result ≡ is_some (found self.now.own name.now) }
    {
        self.own.has(name)
    }

    /// The number of a tag; 0 where it is none of the unit's.
    pub fn tag(&self, name: &[u8]) -> u32
        ensures { result ≡ tag_of self.now name.now }
    {
        match self.tags.place(name) {
            Some(number) => number as u32,
            None => 0,
        }
    }

    /// Whether the definition of the struct of this tag has ended.
    pub fn is_ended(&self, tag: &[u8]) -> bool
        ensures { result ≡ is_ended self.now tag.now }
    {
        match self.tags.get(tag) {
            Some(ended) => *ended,
            None => false,
        }
    }

    /// What a type begins with, as the tree has it.
    pub fn base(&self, kind: &BaseKind) -> Base
        ensures { result ≡ base_of self.now kind.now }
    {
        match kind {
            BaseKind::Int => Base::Integer(Integer::Int),
            BaseKind::Char => Base::Integer(Integer::Char),
            BaseKind::UnsignedInt => Base::Integer(Integer::UnsignedInt),
            BaseKind::UnsignedChar => Base::Integer(Integer::UnsignedChar),
            BaseKind::Void => Base::Void,
            BaseKind::Struct(tag) => Base::Struct(self.tag(tag.as_slice())),
        }
    }

    /// The type of a parameter, of a function's result, and as a cast or `sizeof` names one. The only error is want of memory.
    pub fn plain<'c>(
        &self,
        base: &text_grammar::Base,
        stars: usize,
    ) -> Result<CType<'c>, AllocError>
        ensures { IfOk result (λ t. t ≡ plain_of self.now base.now stars) }
    {
        let stars = stars_of(stars)?;
        Ok(CType::plain(self.base(&base.kind), stars))
    }

    /// The layouts of structs by their tags' numbers; none where the definition has not ended.
    pub fn layouts(&self) -> &[Option<Layout>]
        ensures { result.now ≡ self.now.layouts }
    {
        self.layouts.as_slice()
    }

    /// A struct's member of this name, if it has one.
    pub fn member(&self, tag: u32, name: &[u8]) -> Option<&Member<'t>>
        ensures { option_copied result ≡ member_of self.now tag name.now }
    {
        let members = self.members.get(tag as usize)?;
        members.get(name)
    }

    /// A struct's member at this place among its members, counted from 0.
    pub fn member_at(&self, tag: u32, index: usize) -> Option<&Member<'t>>
        ensures { option_copied result ≡ member_at self.now tag index }
    {
        let members = self.members.get(tag as usize)?;
        members.at(index)
    }
}
