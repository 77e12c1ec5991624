// Tags where they stand.
ghost use Rattle.std.specs.Prelude.{◌≡◌, [], ◌∷◌, ◌++◌, map, OnOk};

use std::alloc::{AllocError, Global};
use std::marker::Model;

/// Tags in the order of the text. Contracts see the list of them.
#[derive(Drop)]
pub struct TagList<'t> {
    held: Vec<&'t [u8]>,
}

impl<'t> Model for TagList<'t> {
    ghost use Rattle.std.specs.Prelude.{ℕ, List, map};
    ghost use denote.Ref.{Bor};

    ghost Value = { List (List ℕ) };

    ghost view = { λ t. map (λ (k : Bor (List ℕ)). k.now) t.held.items };
}

impl<'t> TagList<'t> {
    ghost use denote.Ref.{Bor};
    ghost use Rattle.std.specs.Prelude.{ℕ, List};

    /// None. It takes no memory.
    pub fn new(alloc: Global) -> TagList<'t>
        ensures { result ≡ [] }
    {
        TagList {
            held: Vec::new(alloc),
        }
    }

    /// Appends one.
    pub fn push(&mut self, tag: &'t [u8]) -> Result<(), AllocError>
        ensures { OnOk result (self.new ≡ self.old ++ tag.now ∷ []) }
    {
        self.held.push(tag)?;
        Ok(())
    }

    /// The tags.
    pub fn as_slice(&self) -> &[&'t [u8]]
        ensures { map (λ (k : Bor (List ℕ)). k.now) result.now ≡ self.now }
    {
        self.held.as_slice()
    }
}
