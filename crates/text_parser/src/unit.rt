// The tree of a unit's tokens, or the first token that does not fit.
ghost use Rattle.std.specs.Prelude.{◌≡◌, ◌<◌, ◌^◌, length};
ghost use Rattle.text_parser.specs.Words.{word_symbols, AreWords};
ghost use Rattle.text_parser.specs.Answer.{place_of, AnswersUnit};

use crate::cursor::Cursor;
use crate::externals::read_unit;
use crate::stop::Stop;
use crate::word::Word;
use std::alloc::Global;
use text_grammar::{SyntaxFault, Tree};

// The place of the next token, or the text's end.
fn place_of(text: &[u8], tokens: &Cursor<'_>) -> u32
    requires { length text.now < 2 ^ 32 }
    ensures { result ≡ place_of (length text.now) tokens.now }
{
    match tokens.peek() {
        Some(x) => x.at(),
        None => text.len() as u32,
    }
}

/// The tree of a text's tokens where they are a unit, else the first token with which they begin none, or the text's end
/// where they end too early. It answers `Token` or `Memory` only.
pub fn parse_words(alloc: Global, text: &[u8], words: &[Word]) -> Result<Tree, SyntaxFault>
    requires words { AreWords text.now words.now }
    requires short { length text.now < 2 ^ 32 }
    ensures { AnswersUnit (length text.now) (word_symbols text.now words.now) result }
{
    let mut tokens = Cursor::new(text, words);
    match read_unit(alloc, &mut tokens) {
        Ok(tree) => {
            if tokens.is_empty() {
                Ok(tree)
            } else {
                Err(SyntaxFault::Token {
                    at: place_of(text, &tokens),
                })
            }
        }
        Err(Stop::Memory) => Err(SyntaxFault::Memory),
        Err(Stop::Token) => Err(SyntaxFault::Token {
            at: place_of(text, &tokens),
        }),
    }
}
