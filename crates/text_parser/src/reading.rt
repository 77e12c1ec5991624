// The tree of a text.
ghost use Rattle.std.specs.Prelude.{ℕ, List, Result};
ghost use Rattle.text_grammar.specs.declared.tree.External.{External as Declaration};
ghost use Rattle.text_grammar.specs.declared.fault.SyntaxFault.{SyntaxFault as Fault};
ghost use Rattle.text_parser.specs.Parsing.{HasAnswer, OneAnswer};

use crate::cursor::Cursor;
use crate::depth::first_deep;
use crate::unit::parse_words;
use crate::words::words_of;
use std::alloc::Global;
use text_grammar::{SyntaxFault, Tree, tokens};

/// The tree of a unit's text, in linear time. Where the text is none, the answer is `Long`; else the first `Char` or
/// `Literal`; else the first `Deep`; else the first `Token`. Want of memory may come anywhere.
pub fn parse(alloc: Global, text: &[u8]) -> Result<Tree, SyntaxFault>
    ensures { HasAnswer text.now result }
{
    let found = tokens(alloc, text)?;
    let words = words_of(alloc, text, found.as_slice())?;
    if let Some(at) = first_deep(Cursor::new(text, words.as_slice())) {
        return Err(SyntaxFault::Deep { at });
    }
    parse_words(alloc, text, words.as_slice())
}

/// A text has one answer, but for want of memory: it is no unit's text twice over, nor both a unit's text and not.
pub fn one_answer()
    ensures { (text : List ℕ) (answer other : Result (List Declaration) Fault) → HasAnswer text answer → HasAnswer text other → OneAnswer answer other }
{}
