// A token with its bytes.
ghost use Rattle.std.specs.Prelude.{◌≡◌, IfOk, drop};
ghost use Rattle.text_grammar.specs.declared.kind.Kind.TheVariants as k;
ghost use Rattle.text_grammar.specs.Grammar.{name_at, number_at};
ghost use Rattle.text_grammar.specs.Lexical.{element_value, string_value};
ghost use Rattle.text_parser.specs.Words.{IsLiteral};

use sqlite_items::Items;
use std::alloc::{AllocError, Global};
use std::marker::Model;
use text_grammar::{
    Kind, NameAt, Number, character_value, is_unsigned_number, number_value, string_value,
};

/// A token with its bytes. Contracts see the grammar's symbol.
#[derive(Drop)]
pub struct Lexeme<'a> {
    kind: Kind,
    at: u32,
    text: &'a [u8],
}

impl<'a> Model for Lexeme<'a> {
    ghost use Rattle.text_grammar.specs.Grammar.{Symbol};
    ghost use Rattle.text_parser.specs.Words.{IsLiteral};

    ghost Value = { Symbol };

    ghost view = { λ x. record { kind = x.kind; at = x.at; text = x.text.now } };

    ghost invariant = { λ x. IsLiteral (record { kind = x.kind; at = x.at; text = x.text.now }) };
}

impl<'a> Lexeme<'a> {
    pub fn new(kind: Kind, at: u32, text: &'a [u8]) -> Lexeme<'a>
        requires { IsLiteral (record { kind = kind; at = at; text = text.now }) }
        ensures { result ≡ record { kind = kind; at = at; text = text.now } }
    {
        Lexeme { kind, at, text }
    }

    /// What it is.
    pub fn kind(&self) -> Kind
        ensures { result ≡ self.now.kind }
    {
        self.kind
    }

    /// Where it begins.
    pub fn at(&self) -> u32
        ensures { result ≡ self.now.at }
    {
        self.at
    }

    /// A copy of its bytes.
    pub fn bytes(&self, alloc: Global) -> Result<Items<u8>, AllocError>
        ensures { IfOk result (λ bytes. bytes ≡ self.now.text) }
    {
        Items::from_slice(alloc, self.text)
    }

    /// The name that it is.
    pub fn name(&self, alloc: Global) -> Result<NameAt, AllocError>
        ensures { IfOk result (λ name. name ≡ name_at self.now) }
    {
        Ok(NameAt {
            at: self.at,
            bytes: self.bytes(alloc)?,
        })
    }

    /// The number that it is.
    pub fn number(&self) -> Number
        requires { self.now.kind ≡ k.Num }
        ensures { result ≡ number_at self.now }
    {
        Number {
            at: self.at,
            value: number_value(self.text),
            is_unsigned: is_unsigned_number(self.text),
        }
    }

    /// The byte of the character literal that it is.
    pub fn character(&self) -> u8
        requires { self.now.kind ≡ k.Char }
        ensures { result ≡ element_value (drop 1 self.now.text) }
    {
        character_value(self.text)
    }

    /// The bytes of the string literal that it is.
    pub fn string(&self, alloc: Global) -> Result<Items<u8>, AllocError>
        ensures { IfOk result (λ bytes. bytes ≡ string_value self.now.text) }
    {
        string_value(alloc, self.text)
    }
}
