// Bounds on code and stack, which no pass raises.
ghost use Rattle.std.specs.Prelude.{ℕ, ◌≤◌};
ghost use Rattle.pass_core.specs.laws.Bounds.{le_both};

use crate::language::Language;
use crate::pass::{Pass, Then};

/// A language that bounds the code of a unit, and the stack that a call of each of its functions takes.
pub trait Bounded: Language {
    /// How much code may become of the unit, in bytes.
    ghost bulk: { Self.Unit → ℕ };

    /// How much of the stack a call of the function of this number may take, in bytes, and 0 where the unit has no such
    /// function.
    ghost hold: { Self.Unit → ℕ → ℕ };
}

/// A pass that raises neither bound.
pub trait Lighter: Pass
where
    Self::From: Bounded,
    Self::To: Bounded,
{
    /// No more code becomes of the target's unit.
    ghost lighter: { (from : Self.From.Unit) (to : Self.To.Unit) →
        Self.matches from to → Self.To.bulk to ≤ Self.From.bulk from };

    /// None of its functions takes more of the stack.
    ghost holds: { (from : Self.From.Unit) (to : Self.To.Unit) (function : ℕ) →
        Self.matches from to → Self.To.hold to function ≤ Self.From.hold from function };
}

impl<A: Lighter, B: Lighter<From = A::To>> Lighter for Then<A, B>
where
    A::From: Bounded,
    A::To: Bounded,
    B::To: Bounded,
{
    ghost lighter = { λ from to m. le_both (B.lighter m.middle to m.second) (A.lighter from m.middle m.first) };

    ghost holds = { λ from to function m. le_both (B.holds m.middle to function m.second) (A.holds from m.middle function m.first) };
}

/// What a pass does to bounds, as facts that a caller gets.
pub fn lightened<P: Lighter>()
where
    P::From: Bounded,
    P::To: Bounded,
    ensures bulk { (from : P.From.Unit) (to : P.To.Unit) → P.matches from to → P.To.bulk to ≤ P.From.bulk from }
    ensures hold { (from : P.From.Unit) (to : P.To.Unit) (function : ℕ) → P.matches from to → P.To.hold to function ≤ P.From.hold from function }
{}
