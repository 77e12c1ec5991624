// A text is cut into tokens by longest match.
ghost use Rattle.std.specs.Prelude.{◌≡◌, ℕ, List, IfOk, IfErr};
ghost use Rattle.std.specs.List.{All};
ghost use Rattle.text_grammar.specs.Scanning.{Ending, IsCut, HasTokens, HasTokenFault};
ghost use Rattle.text_grammar.specs.Spelled.{IsSpelled};
ghost use Rattle.text_grammar.specs.Lexemes.{AreBytes, IsLexemeIn};
ghost use Rattle.text_grammar.specs.declared.token_list.Token.{Token as TokenValue};

use crate::fault::SyntaxFault;
use crate::front::{Front, front_of};
use crate::token_list::{Token, Tokens};
use std::alloc::Global;

// The longest text of a unit, in bytes.
const TEXT_MAX: usize = 1_048_576;

/// The tokens of a text by longest match, in linear time. It answers `Long`, `Char`, `Literal` or `Memory` only: `Long`
/// where the text has more than 1,048,576 bytes, else the first place where no token or no literal stands.
pub fn tokens(alloc: Global, text: &[u8]) -> Result<Tokens, SyntaxFault>
    ensures tokens { IfOk result (HasTokens text.now) }
    ensures spelled { IfOk result (All (IsSpelled text.now)) }
    ensures fault { IfErr result (HasTokenFault text.now) }
{
    if text.len() > TEXT_MAX {
        return Err(SyntaxFault::Long);
    }
    let mut found = Tokens::new(alloc);
    let mut at = 0;
    while at < text.len() {
        match front_of(&text[at..]) {
            Front::Blank(length) => at += length,
            Front::Token(kind, length) => {
                found.push(Token {
                    kind,
                    start: at as u32,
                    length: length as u32,
                })?;
                at += length;
            }
            Front::BadLiteral => return Err(SyntaxFault::Literal { at: at as u32 }),
            Front::NoToken => return Err(SyntaxFault::Char { at: at as u32 }),
        }
    }
    Ok(found)
}

/// A text is cut into its tokens in one way: it has one list of tokens up to one ending.
pub fn cut_in_one_way()
    ensures { (text : List ℕ) (tokens others : List TokenValue) (ending other : Ending) → IsCut 0 text tokens ending → IsCut 0 text others other → (tokens ≡ others) × (ending ≡ other) }
{}

/// What the tokens of a text of bytes are, as far as they are found: names are words and no keywords, numbers are within
/// their range, and the values of characters and strings are bytes.
pub fn tokens_are_lexemes()
    ensures { (text : List ℕ) (tokens : List TokenValue) (ending : Ending) → AreBytes text → IsCut 0 text tokens ending → All (IsLexemeIn text) tokens }
{}
