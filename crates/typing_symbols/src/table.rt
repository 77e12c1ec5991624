// The symbols of a unit.
ghost use Rattle.std.specs.Prelude.{◌≡◌, ◌<◌, ◌^◌, length, position, nat_lt, slice_get, Some};
ghost use Rattle.std.specs.Str.{bytes_eq};
ghost use Rattle.typing_symbols.specs.Names.{is_among};

use crate::names::Names;
use std::marker::Model;

/// The symbols of a unit, without the first, empty symbol. A symbol is numbered from 0 by its place. There are fewer than 2^32.
#[derive(Drop)]
pub struct Symbols<'t> {
    // Static definitions, and then the others.
    names: Names<'t>,
    // The names that the unit defines.
    defined: Names<'t>,
    // How many of the symbols are static definitions.
    locals: usize,
}

impl<'t> Model for Symbols<'t> {
    ghost use Rattle.std.specs.Prelude.{◌<◌, ◌^◌, length};
    ghost use Rattle.typing_symbols.specs.Table.{Table};

    ghost Value = { Table };

    ghost view = { λ s. record { names = s.names; defined = s.defined; locals = s.locals } };

    ghost invariant = { λ s. length s.names < 2 ^ 32 };
}

impl<'t> Symbols<'t> {
    /// These symbols, of which the first are static definitions.
    pub fn new(names: Names<'t>, defined: Names<'t>, locals: usize) -> Symbols<'t>
        requires { length names < 2 ^ 32 }
        ensures { result ≡ record { names = names.entry; defined = defined.entry; locals = locals } }
    {
        Symbols {
            names,
            defined,
            locals,
        }
    }

    /// The number of a name's symbol. None exactly where the unit has no symbol of this name: it neither defines nor uses it.
    pub fn number(&self, name: &[u8]) -> Option<u32>
        ensures { result ≡ position (bytes_eq name.now) self.now.names }
    {
        Some(self.names.place(name)? as u32)
    }

    /// How many symbols there are.
    pub fn len(&self) -> u32
        ensures { result ≡ length self.now.names }
    {
        self.names.len() as u32
    }

    /// The name of a symbol.
    pub fn name(&self, number: u32) -> &'t [u8]
        requires { number < length self.now.names }
        ensures { slice_get self.now.names number ≡ Some result.now }
    {
        self.names.at(number as usize)
    }

    /// Whether other units do not see it.
    pub fn is_local(&self, number: u32) -> bool
        ensures { result ≡ nat_lt number self.now.locals }
    {
        (number as usize) < self.locals
    }

    /// Whether the unit defines a name.
    pub fn is_defined(&self, name: &[u8]) -> bool
        ensures { result ≡ is_among name.now self.now.defined }
    {
        self.defined.has(name)
    }
}
