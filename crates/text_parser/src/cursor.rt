// The tokens that are left.
ghost use Rattle.std.specs.Prelude.{◌≡◌, ◌↔◌, IsTrue, [], length};
ghost use Rattle.text_grammar.specs.laws.Programs.{head, tail, begins_type};
ghost use Rattle.text_parser.specs.Words.{word_symbols, AreWords};
ghost use Rattle.text_parser.specs.Descent.{TakesIf, Expects};

use crate::lexeme::Lexeme;
use crate::stop::Stop;
use crate::word::Word;
use std::marker::Model;
use text_grammar::Kind;

/// The tokens that are left of a text. Contracts see the list of their symbols.
#[derive(Drop)]
pub struct Cursor<'a> {
    text: &'a [u8],
    rest: &'a [Word],
}

impl<'a> Model for Cursor<'a> {
    ghost use Rattle.std.specs.Prelude.{List};
    ghost use Rattle.text_grammar.specs.Grammar.{Symbol};
    ghost use Rattle.text_parser.specs.Words.{word_symbols, AreWords};

    ghost Value = { List Symbol };

    ghost view = { λ c. word_symbols c.text.now c.rest.now };

    ghost invariant = { λ c. AreWords c.text.now c.rest.now };
}

impl<'a> Cursor<'a> {
    pub fn new(text: &'a [u8], rest: &'a [Word]) -> Cursor<'a>
        requires { AreWords text.now rest.now }
        ensures { result ≡ word_symbols text.now rest.now }
    {
        Cursor { text, rest }
    }

    /// How many tokens are left.
    pub fn left(&self) -> usize
        ensures { result ≡ length self.now }
    {
        self.rest.len()
    }

    /// Whether none is left.
    pub fn is_empty(&self) -> bool
        ensures { IsTrue result ↔ (self.now ≡ []) }
    {
        self.rest.is_empty()
    }

    /// The next token.
    pub fn peek(&self) -> Option<Lexeme<'a>>
        ensures { result ≡ head self.now }
    {
        let text = self.text;
        match self.rest {
            [] => None,
            [first, ..] => {
                let start = first.start as usize;
                let length = first.length as usize;
                Some(Lexeme::new(first.kind, first.start, &text[start..][..length]))
            }
        }
    }

    /// Passes over the next token.
    pub fn skip(&mut self)
        ensures { self.new ≡ tail self.old }
    {
        match self.rest {
            [] => {}
            [_, rest @ ..] => self.rest = rest,
        }
    }

    /// Takes the next token if it is of this kind.
    #[tactic(auto, using(text_grammar::specs::laws::Same::same_self, text_grammar::specs::laws::Same::same_not))]
    pub fn next_if(&mut self, kind: Kind) -> Option<Lexeme<'a>>
        ensures { TakesIf kind self.old result self.new }
    {
        match self.peek() {
            Some(x) if x.kind() == kind => {
                self.skip();
                Some(x)
            }
            _ => None,
        }
    }

    /// Takes the next token, which is to be of this kind.
    pub fn expect(&mut self, kind: Kind) -> Result<Lexeme<'a>, Stop>
        ensures { Expects kind self.old result self.new }
    {
        match self.next_if(kind) {
            Some(x) => Ok(x),
            None => Err(Stop::Token),
        }
    }
}
