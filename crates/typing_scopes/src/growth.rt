// How a scope grows from one place to the next.
ghost use Rattle.std.specs.Prelude.{◌≡◌, ◌<◌, true, None, length, is_some, IfOk, OnOk};
ghost use Rattle.typing_scopes.specs.Tables.{found};
ghost use Rattle.typing_scopes.specs.Names.{tag_of};
ghost use Rattle.typing_scopes.specs.Growth.{nothing, with_built_in, with_declared, with_own, outside, with_new_tag, with_tag, with_struct};

use crate::entity::{Declared, Entity, Member};
use crate::scope::Scope;
use crate::table::Table;
use sqlite_items::Items;
use std::alloc::{AllocError, Global};
use typing_types::Layout;

impl<'t> Scope<'t> {
    /// Nothing is known. It takes no memory.
    pub fn new(alloc: Global) -> Scope<'t>
        ensures { result ≡ nothing }
    {
        Scope {
            own: Table::new(alloc),
            names: Table::new(alloc),
            built_in: Table::new(alloc),
            tags: Table::new(alloc),
            layouts: Items::new(alloc),
            members: Items::new(alloc),
        }
    }

    /// A name is known without a declaration.
    pub fn build_in(&mut self, name: &'t [u8], entity: Entity<'t>) -> Result<(), AllocError>
        ensures { OnOk result (self.new ≡ with_built_in self.old name.now entity.entry) }
    {
        self.built_in.set(name, entity)
    }

    /// A name is declared at file scope, and this is what its declarations say from here on.
    pub fn declare(&mut self, name: &'t [u8], declared: Declared<'t>) -> Result<(), AllocError>
        ensures { OnOk result (self.new ≡ with_declared self.old name.now declared.entry) }
    {
        self.names.set(name, declared)
    }

    /// A name is that of a parameter or a local.
    pub fn add_own(&mut self, name: &'t [u8], entity: Entity<'t>) -> Result<(), AllocError>
        ensures { OnOk result (self.new ≡ with_own self.old name.now entity.entry) }
    {
        self.own.set(name, entity)
    }

    /// Forgets the names of the current function, in time linear in their number.
    pub fn leave(&mut self, alloc: Global)
        ensures { self.new ≡ outside self.old }
    {
        self.own.forget(alloc);
    }

    // A tag is seen for the first time.
    fn add_tag(&mut self, alloc: Global, tag: &'t [u8]) -> Result<(), AllocError>
        requires { found self.old.tags tag.now ≡ None }
        ensures { OnOk result (self.new ≡ with_new_tag self.old tag.now) }
    {
        if self.tags.len() >= u32::MAX as usize {
            return Err(AllocError);
        }
        self.layouts.push(None)?;
        self.members.push(Table::new(alloc))?;
        self.tags.set(tag, false)
    }

    fn add_unseen(&mut self, alloc: Global, tag: &'t [u8]) -> Result<(), AllocError>
        ensures { OnOk result (self.new ≡ with_tag self.old tag.now) }
    {
        match self.tags.get(tag) {
            Some(_) => Ok(()),
            None => self.add_tag(alloc, tag),
        }
    }

    /// A tag is seen. Answers its number.
    pub fn see_tag(&mut self, alloc: Global, tag: &'t [u8]) -> Result<u32, AllocError>
        ensures seen { OnOk result (self.new ≡ with_tag self.old tag.now) }
        ensures number { IfOk result (λ number. number ≡ tag_of self.new tag.now) }
        ensures layout { IfOk result (λ number. number < length self.new.layouts) }
        ensures members { IfOk result (λ number. number < length self.new.members) }
        ensures known { OnOk result (is_some (found self.new.tags tag.now) ≡ true) }
    {
        self.add_unseen(alloc, tag)?;
        match self.tags.place(tag) {
            Some(number) => Ok(number as u32),
            None => unreachable!(),
        }
    }

    /// The definition of a struct has ended, with these members. Its layout is not known where a member breaks a rule.
    pub fn define_struct(
        &mut self,
        alloc: Global,
        tag: &'t [u8],
        members: Table<'t, Member<'t>>,
        layout: Option<Layout>,
    ) -> Result<(), AllocError>
        ensures { OnOk result (self.new ≡ with_struct self.old tag.now members.entry layout) }
    {
        let number = self.see_tag(alloc, tag)? as usize;
        self.tags.set(tag, true)?;
        self.layouts.set(number, layout);
        self.members.set(number, members);
        Ok(())
    }
}
