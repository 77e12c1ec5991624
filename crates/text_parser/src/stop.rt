// Why the parser's functions stop.
ghost use Rattle.std.specs.Prelude.{◌≡◌};
ghost use Rattle.text_parser.specs.declared.stop.Stop.TheVariants.{Memory};

use std::alloc::AllocError;

/// Why a function of the parser stops.
#[derive(Clone, Copy, Debug, PartialEq, Eq)]
pub enum Stop {
    /// There was not enough memory.
    Memory,
    /// The next token does not fit, or the text ends too early. The cursor stands before it.
    Token,
}

impl From<AllocError> for Stop {
    ghost from_gives = { λ _ stop. stop ≡ Memory };

    fn from(_error: AllocError) -> Stop {
        Stop::Memory
    }
}
