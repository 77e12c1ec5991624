// The tokens of a text.
use cc_base::Sequence;

/// What kind of token it is.
#[derive(Clone, Copy, Debug, PartialEq, Eq)]
pub enum TokenKind {
    /// A word of C that is no name, whether the source language has a use for it or not.
    Keyword,
    /// A name.
    Id,
    /// A number with its suffix.
    Num,
    /// A character literal.
    Char,
    /// A string literal.
    Str,
    /// A sign of one or two bytes.
    Sign,
}

/// A token of a text: `length` bytes of the text from `start` on.
#[derive(Clone, Copy, Debug, PartialEq, Eq)]
pub struct Token {
    pub kind: TokenKind,
    /// The place of its first byte, counted from 0.
    pub start: u32,
    /// How many bytes it has, at least one.
    pub length: u32,
}

/// Tokens in the order of the text. Contracts see just the list.
pub type Tokens = Sequence<Token>;
