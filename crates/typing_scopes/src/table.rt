// What is known of names, each once.
ghost use Rattle.std.specs.Prelude.{◌≡◌, ◌<◌, ◌+◌, [], if◌then◌else◌, length, position, is_some, IfSome, OnOk, OnErr, option_copied};
ghost use Rattle.std.specs.Str.{bytes_eq};
ghost use Rattle.std.specs.Map.{keys_of};
ghost use Rattle.typing_scopes.specs.Tables.{found, found_at, with_entry};

use indexmap::IndexMap;
use std::alloc::{AllocError, Global};
use std::marker::Model;

/// What is known of names, each once, in the order in which they were first told. A look-up takes constant time, as far as hashes
/// are spread, whatever the number of names. Contracts see the list of names with what is known of them.
#[derive(Drop)]
pub struct Table<'t, V> {
    held: IndexMap<&'t [u8], V>,
}

impl<'t, V> Model for Table<'t, V> {
    ghost use Rattle.std.specs.Prelude.{ℕ, List};
    ghost use Rattle.typing_scopes.specs.Tables.{entries_in};

    ghost Value = { List (List ℕ × V) };

    ghost view = { λ t. entries_in t.held };
}

impl<'t, V: Drop> Table<'t, V> {
    /// Nothing is known. It takes no memory.
    pub fn new(alloc: Global) -> Table<'t, V>
        ensures { result ≡ [] }
    {
        Table {
            held: IndexMap::new(alloc),
        }
    }

    /// What is known of a name, if anything is.
    pub fn get(&self, name: &[u8]) -> Option<&V>
        ensures { option_copied result ≡ found self.now name.now }
    {
        self.held.get(name)
    }

    /// What is known of the name that came at this place, counted from 0.
    pub fn at(&self, place: usize) -> Option<&V>
        ensures { option_copied result ≡ found_at self.now place }
    {
        let (_, value) = self.held.get_index(place)?;
        Some(value)
    }

    /// Whether something is known of a name.
    pub fn has(&self, name: &[u8]) -> bool
        ensures { result ≡ is_some (found self.now name.now) }
    {
        self.get(name).is_some()
    }

    /// How many names there are.
    pub fn len(&self) -> usize
        ensures { result ≡ length self.now }
    {
        self.held.len()
    }

    /// The place of a name, counted from 0, if something is known of it.
    pub fn place(&self, name: &[u8]) -> Option<usize>
        ensures place { result ≡ position (bytes_eq name.now) (keys_of self.now) }
        ensures within { IfSome result (λ i. i < length self.now) }
        ensures some { is_some result ≡ is_some (found self.now name.now) }
    {
        self.held.get_index_of(name)
    }

    /// Tells this of a name, in place of what was known of it.
    pub fn set(&mut self, name: &'t [u8], value: V) -> Result<(), AllocError>
        ensures entries { OnOk result (self.new ≡ with_entry self.old name.now value) }
        ensures len { OnOk result (length self.new ≡ length self.old + (if is_some (found self.old name.now) then 0 else 1)) }
        ensures err { OnErr result (self.new ≡ self.old) }
    {
        self.held.insert(name, value)?;
        Ok(())
    }

    /// Forgets all names, in time linear in their number.
    pub fn forget(&mut self, alloc: Global)
        ensures { self.new ≡ [] }
    {
        let _old = std::mem::replace(&mut self.held, IndexMap::new(alloc));
    }
}
