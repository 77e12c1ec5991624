// Sums of sizes.
ghost use Rattle.std.specs.Prelude.{◌≡◌, ◌≤◌, IfSome};
ghost use Rattle.typing_types.specs.Widths.{largest};
ghost use Rattle.typing_declarations.specs.Sums.{with_size, with_maybe_size, is_past_sum};

use std::marker::Model;

/// The greatest sum of the sizes of objects, each rounded up to a multiple of 4, in bytes.
const GREATEST: u32 = 16_777_216;

/// A sum of sizes of objects, each rounded up to a multiple of 4. Contracts see the number; past the greatest it is that plus 1.
#[derive(Clone, Copy, Debug, PartialEq, Eq)]
pub struct Sum {
    bytes: u32,
}

impl Model for Sum {
    ghost use Rattle.std.specs.Prelude.{ℕ, ◌≤◌};

    ghost Value = { ℕ };

    ghost view = { λ s. s.bytes };

    ghost inverse = { λ n. record { bytes = n } };

    ghost invariant = { λ s. s.bytes ≤ 16777217 };
}

impl Sum {
    /// Of nothing.
    pub fn new() -> Sum
        ensures { result ≡ 0 }
    {
        Sum { bytes: 0 }
    }

    /// The sum, in bytes; 16,777,217 where it is past the greatest.
    pub fn bytes(self) -> u32
        ensures value { result ≡ self }
        ensures small { result ≤ 16777217 }
    {
        self.bytes
    }

    fn with(self, size: u32) -> Sum
        requires { size ≤ largest }
        ensures { result ≡ with_size self size }
    {
        let bytes = self.bytes + size.next_multiple_of(4);
        Sum {
            bytes: bytes.min(GREATEST + 1),
        }
    }

    /// With one size more, where it is known.
    pub(crate) fn with_maybe(self, size: Option<u32>) -> Sum
        requires { IfSome size (λ n. n ≤ largest) }
        ensures { result ≡ with_maybe_size self size }
    {
        match size {
            Some(size) => self.with(size),
            None => self,
        }
    }

    /// Whether it is past the greatest.
    pub(crate) fn is_past(self) -> bool
        ensures { result ≡ is_past_sum self }
    {
        self.bytes > GREATEST
    }
}
