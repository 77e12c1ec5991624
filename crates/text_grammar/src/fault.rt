// Why a text is not a unit's text.
ghost use Rattle.std.specs.Prelude.{◌≡◌};
ghost use Rattle.text_grammar.specs.declared.fault.SyntaxFault.TheVariants.{Memory};

use std::alloc::AllocError;
use thiserror::Error;

/// Why a text is not a unit's text. Where it has several faults, the answer is `Long`; else the first `Char` or
/// `Literal`; else the first `Deep`; else the first `Token`. Places are counted in bytes from 0.
#[derive(Clone, Copy, Debug, PartialEq, Eq, Error)]
pub enum SyntaxFault {
    /// The text has more than 1,048,576 bytes.
    #[error("the text is longer than 1048576 bytes")]
    Long,
    /// No token begins at this place, or a comment that has no end.
    #[error("no token begins here")]
    Char { at: u32 },
    /// The number, or the character or string literal that begins at this place, is not as it must be.
    #[error("a number, character or string is not as it must be")]
    Literal { at: u32 },
    /// With the token at this place too many brackets are open, or too many tokens stand in a row.
    #[error("too many brackets are open, or too many tokens stand in a row")]
    Deep { at: u32 },
    /// With the token at this place the text begins no unit; at the text's length, the text ends too early.
    #[error("the token does not fit")]
    Token { at: u32 },
    /// There was not enough memory.
    #[error("there is not enough memory")]
    Memory,
}

impl From<AllocError> for SyntaxFault {
    ghost from_gives = { λ _ fault. fault ≡ Memory };

    fn from(_error: AllocError) -> SyntaxFault {
        SyntaxFault::Memory
    }
}
