// What a unit brings beside its code, which each pass keeps.
ghost use Rattle.std.specs.Prelude.{◌≡◌, List, map};
ghost use Rattle.std.proofs.Common.{◌∙◌};
ghost use Rattle.pass_core.specs.Lists.{EachMatches};
ghost use Rattle.pass_core.specs.laws.Lists.{same_of_each};
ghost use Rattle.unit_names.specs.Names.{NamedUnit};

use pass_core::{Language, Pass, Then};

/// A language whose units have globals, symbols and functions.
pub trait Named: Language {
    /// What a unit brings beside its code.
    ghost named: { Self.Unit → NamedUnit };
}

/// A pass that keeps what a unit brings beside its code: what other units see of it, its globals, the names of its symbols,
/// and of each function its symbol, whether it is static, and its need.
pub trait KeepsNames: Pass
where
    Self::From: Named,
    Self::To: Named,
{
    /// The target's unit brings the same.
    ghost same_named: { (from : Self.From.Unit) (to : Self.To.Unit) →
        Self.matches from to → Self.To.named to ≡ Self.From.named from };
}

impl<A: KeepsNames, B: KeepsNames<From = A::To>> KeepsNames for Then<A, B>
where
    A::From: Named,
    A::To: Named,
    B::To: Named,
{
    ghost same_named = { λ from to m. B.same_named m.middle to m.second ∙ A.same_named from m.middle m.first };
}

/// What a pass keeps, as facts that a caller gets: of one unit, and of a program's.
pub fn names_kept<P: KeepsNames>()
where
    P::From: Named,
    P::To: Named,
    ensures unit { (from : P.From.Unit) (to : P.To.Unit) → P.matches from to → P.To.named to ≡ P.From.named from }
    ensures units { (from : List P.From.Unit) (to : List P.To.Unit) →
        EachMatches P.matches from to →
        map P.To.named to ≡ map P.From.named from }
{}
