// Names, each once, in the order in which they were added.
ghost use Rattle.std.specs.Prelude.{◌≡◌, ◌≤◌, ◌<◌, ◌^◌, [], length, position, slice_get, OnOk, Some};
ghost use Rattle.std.specs.Str.{bytes_eq};
ghost use Rattle.typing_symbols.specs.Names.{is_among, with_name};

use indexmap::IndexSet;
use std::alloc::{AllocError, Global};
use std::marker::Model;

/// Names, each once, in the order in which they were added. Contracts see the list of them.
#[derive(Drop)]
pub struct Names<'t> {
    held: IndexSet<&'t [u8]>,
}

impl<'t> Model for Names<'t> {
    ghost use Rattle.std.specs.Prelude.{ℕ, List};
    ghost use Rattle.typing_symbols.specs.Names.{names_in};

    ghost Value = { List (List ℕ) };

    ghost view = { λ n. names_in n.held };
}

impl<'t> Names<'t> {
    /// No names. It takes no memory.
    pub fn new(alloc: Global) -> Names<'t>
        ensures { result ≡ [] }
    {
        Names {
            held: IndexSet::new(alloc),
        }
    }

    /// Adds a name, where it does not stand there already. There may be fewer than 2^32; one more is want of memory.
    pub fn add(&mut self, name: &'t [u8]) -> Result<(), AllocError>
        ensures { OnOk result (self.new ≡ with_name self.old name.now) }
    {
        self.held.insert(name)?;
        Ok(())
    }

    /// Whether the name is among them.
    pub fn has(&self, name: &[u8]) -> bool
        ensures { result ≡ is_among name.now self.now }
    {
        self.held.contains(name)
    }

    /// The place of a name among them, counted from 0.
    pub fn place(&self, name: &[u8]) -> Option<usize>
        ensures { result ≡ position (bytes_eq name.now) self.now }
    {
        self.held.get_index_of(name)
    }

    /// How many there are.
    pub fn len(&self) -> usize
        ensures { result ≡ length self.now }
    {
        self.held.len()
    }

    /// The name at a place.
    pub fn at(&self, place: usize) -> &'t [u8]
        requires { place < length self.now }
        ensures { slice_get self.now place ≡ Some result.now }
    {
        match self.held.get_index(place) {
            Some(name) => *name,
            None => unreachable!(),
        }
    }
}
