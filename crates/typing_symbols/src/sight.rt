// Where names stand.
ghost use Rattle.std.specs.Prelude.{◌≡◌, [], ◌∷◌, ◌++◌, OnOk};
ghost use Rattle.typing_symbols.specs.Sights.{seen};

use std::alloc::{AllocError, Global};
use std::marker::Model;

/// What stands where a name does.
#[derive(Clone, Copy, Debug, PartialEq, Eq)]
pub enum How {
    /// A use in a body or in an initialiser.
    Used,
    /// A use under `sizeof`, which is not evaluated (C11, 6.5.3.4).
    Measured,
    /// A declaration that is no definition, and whether it is static.
    Declared(bool),
    /// A definition, and whether it is static.
    Defined(bool),
}

/// A name where it stands.
#[derive(Drop)]
pub struct Sight<'t> {
    pub name: &'t [u8],
    pub how: How,
}

/// Names where they stand, in the order of the text. Contracts see the list of them.
#[derive(Drop)]
pub struct Sights<'t> {
    held: Vec<Sight<'t>>,
}

impl<'t> Model for Sights<'t> {
    ghost use Rattle.std.specs.Prelude.{List};
    ghost use Rattle.typing_symbols.specs.Sights.{Seen};
    ghost use Rattle.typing_symbols.specs.Held.{seen_in};

    ghost Value = { List Seen };

    ghost view = { λ s. seen_in s.held.items };
}

impl<'t> Sights<'t> {
    ghost use Rattle.typing_symbols.specs.Held.{seen_in};

    /// None. It takes no memory.
    pub fn new(alloc: Global) -> Sights<'t>
        ensures { result ≡ [] }
    {
        Sights {
            held: Vec::new(alloc),
        }
    }

    /// Appends one.
    pub fn push(&mut self, name: &'t [u8], how: How) -> Result<(), AllocError>
        ensures { OnOk result (self.new ≡ self.old ++ seen how name.now ∷ []) }
    {
        self.held.push(Sight { name, how })?;
        Ok(())
    }

    /// The sights.
    pub fn as_slice(&self) -> &[Sight<'t>]
        ensures { seen_in result.now ≡ self.now }
    {
        self.held.as_slice()
    }
}
