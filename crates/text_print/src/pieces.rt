// The canonical tokens of a tree, as they are found.
ghost use Rattle.std.specs.Prelude.{◌≡◌, [], ◌∷◌, ◌++◌, OnOk};
ghost use Rattle.text_print.specs.Spelling.{fixed, name, number, character, string};

use std::alloc::{AllocError, Global};
use std::marker::Model;
use text_grammar::Kind;

/// A token of a canonical text.
#[derive(Drop)]
pub enum Piece<'a> {
    /// A keyword or a sign.
    Fixed(Kind),
    Name(&'a [u8]),
    /// A value, and whether it is unsigned.
    Number(u32, bool),
    /// The byte of a character literal.
    Character(u8),
    /// The bytes of a string literal.
    String(&'a [u8]),
}

/// Tokens in the order of the text. Contracts see the list of the grammar's symbols, at no place.
#[derive(Drop)]
pub struct Pieces<'a> {
    held: Vec<Piece<'a>>,
}

impl<'a> Model for Pieces<'a> {
    ghost use Rattle.std.specs.Prelude.{List};
    ghost use Rattle.text_grammar.specs.Grammar.{Symbol};
    ghost use Rattle.text_print.specs.Pieces.{tokens_in};

    ghost Value = { List Symbol };

    ghost view = { λ p. tokens_in p.held.items };
}

impl<'a> Pieces<'a> {
    ghost use Rattle.text_print.specs.Pieces.{tokens_in};

    /// No tokens. It takes no memory.
    pub fn new(alloc: Global) -> Pieces<'a>
        ensures { result ≡ [] }
    {
        Pieces {
            held: Vec::new(alloc),
        }
    }

    /// The tokens.
    pub fn as_slice(&self) -> &[Piece<'a>]
        ensures { tokens_in result.now ≡ self.now }
    {
        self.held.as_slice()
    }

    /// Appends a keyword or a sign.
    pub fn fixed(&mut self, kind: Kind) -> Result<(), AllocError>
        ensures { OnOk result (self.new ≡ self.old ++ fixed kind ∷ []) }
    {
        self.held.push(Piece::Fixed(kind))?;
        Ok(())
    }

    /// Appends a name.
    pub fn name(&mut self, bytes: &'a [u8]) -> Result<(), AllocError>
        ensures { OnOk result (self.new ≡ self.old ++ name bytes.now ∷ []) }
    {
        self.held.push(Piece::Name(bytes))?;
        Ok(())
    }

    /// Appends a number.
    pub fn number(&mut self, value: u32, is_unsigned: bool) -> Result<(), AllocError>
        ensures { OnOk result (self.new ≡ self.old ++ number value is_unsigned ∷ []) }
    {
        self.held.push(Piece::Number(value, is_unsigned))?;
        Ok(())
    }

    /// Appends a character literal.
    pub fn character(&mut self, byte: u8) -> Result<(), AllocError>
        ensures { OnOk result (self.new ≡ self.old ++ character byte ∷ []) }
    {
        self.held.push(Piece::Character(byte))?;
        Ok(())
    }

    /// Appends a string literal.
    pub fn string(&mut self, bytes: &'a [u8]) -> Result<(), AllocError>
        ensures { OnOk result (self.new ≡ self.old ++ string bytes.now ∷ []) }
    {
        self.held.push(Piece::String(bytes))?;
        Ok(())
    }
}
