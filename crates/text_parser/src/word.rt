// What the parser keeps of a token.
use text_grammar::Kind;

/// A token: what it is to the grammar, where it begins, and how many bytes it has.
#[derive(Clone, Copy, Debug, PartialEq, Eq)]
pub struct Word {
    pub kind: Kind,
    pub start: u32,
    pub length: u32,
}
