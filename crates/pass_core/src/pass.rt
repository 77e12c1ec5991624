// Passes.
ghost use Rattle.std.specs.Prelude.{◌≡◌, ℕ, List, map, IfOk};
ghost use Rattle.std.proofs.Common.{◌∙◌, subst, sym};
ghost use Rattle.cc_base.specs.Faces.{Linkable};
ghost use Rattle.pass_core.specs.Inputs.{AreBytes};
ghost use Rattle.pass_core.specs.Lists.{EachMatches, Through};
ghost use Rattle.pass_core.specs.Refines.{Refines};
ghost use Rattle.pass_core.specs.Rooms.{Allowed};
ghost use Rattle.pass_core.specs.laws.Lists.{split, same_of_each};
ghost use Rattle.pass_core.specs.laws.Refines.{refines_both};

use crate::language::Language;
use std::alloc::{AllocError, Global};

/// A pass from one language to another. Each unit is made without a look at any other.
///
/// The laws `same_face` and `refines` hold for every unit that the pass may make of the source's, and not just for the one
/// that it does make: what they need of a unit is in `matches`.
pub trait Pass {
    type From: Language;

    type To: Language;

    /// The target's unit is one that the pass may make of the source's.
    ghost matches: { Self.From.Unit → Self.To.Unit → Type 0 };

    /// The source's layout that goes with one of the target.
    ghost back: { Self.To.Layout → Self.From.Layout };

    /// Makes a unit that matches.
    ///
    /// # Errors
    /// Memory has run out.
    fn run(
        &self,
        alloc: Global,
        unit: &<Self::From as Language>::Unit,
    ) -> Result<<Self::To as Language>::Unit, AllocError>
        ensures { IfOk result (λ made. matches unit.now made) };

    /// Other units see the same.
    ghost same_face: { (from : Self.From.Unit) (to : Self.To.Unit) →
        matches from to → Self.To.face to ≡ Self.From.face from };

    /// Units that match, and that are a program, do what the source's do: in every layout that serves them, in every room
    /// that a stack may leave, and on every input of bytes.
    ghost refines: { (from : List Self.From.Unit) (to : List Self.To.Unit) (layout : Self.To.Layout) →
        EachMatches matches from to →
        Linkable (map Self.From.face from) →
        Self.To.proper to layout →
        Self.From.proper from (back layout) × ((room : ℕ) (input : List ℕ) →
        Allowed room →
        AreBytes input →
        Refines (Self.From.after from (back layout) room input) (Self.To.after to layout room input)) };
}

/// One pass, and then another.
#[derive(Drop)]
pub struct Then<A, B> {
    pub first: A,
    pub second: B,
}

impl<A: Pass, B: Pass<From = A::To>> Pass for Then<A, B> {
    type From = A::From;

    type To = B::To;

    ghost matches = { Through A.matches B.matches };

    ghost back = { λ layout. A.back (B.back layout) };

    ghost same_face = { λ from to m. B.same_face m.middle to m.second ∙ A.same_face from m.middle m.first };

    ghost refines = { λ from to layout each linked proper.
        let s = split A.matches B.matches from to each in
        let linked_middle = subst Linkable (sym (same_of_each A.From.face A.To.face A.matches A.same_face from s.middle s.first)) linked in
        let late = B.refines s.middle to layout s.second linked_middle proper in
        let early = A.refines from s.middle (B.back layout) s.first linked late.0 in (
          early.0,
          λ room input allowed bytes.
              refines_both (A.From.after from (A.back (B.back layout)) room input) (A.To.after s.middle (B.back layout) room input) (B.To.after to layout room input)
              (early.1 room input allowed bytes) (late.1 room input allowed bytes),
        ) };

    fn run(
        &self,
        alloc: Global,
        unit: &<A::From as Language>::Unit,
    ) -> Result<<B::To as Language>::Unit, AllocError> {
        let middle = self.first.run(alloc, unit)?;
        self.second.run(alloc, &middle)
    }
}

/// The laws of a pass, as facts that a caller gets: of one that is composed, `refined::<Then<..>>()`.
pub fn refined<P: Pass>()
    // Other units see the same of what was made.
    ensures faces { (from : P.From.Unit) (to : P.To.Unit) → P.matches from to → P.To.face to ≡ P.From.face from }
    // What was made does what the source's units do.
    ensures refines { (from : List P.From.Unit) (to : List P.To.Unit) (layout : P.To.Layout) →
        EachMatches P.matches from to →
        Linkable (map P.From.face from) →
        P.To.proper to layout →
        P.From.proper from (P.back layout) × ((room : ℕ) (input : List ℕ) →
        Allowed room →
        AreBytes input →
        Refines (P.From.after from (P.back layout) room input) (P.To.after to layout room input)) }
{}

/// Runs the pass on each unit, one after another.
///
/// # Errors
/// Memory has run out.
pub fn run_all<P: Pass>(
    pass: &P,
    alloc: Global,
    units: &[<P::From as Language>::Unit],
) -> Result<Vec<<P::To as Language>::Unit>, AllocError>
    ensures { IfOk result (λ made. EachMatches P.matches units.now made.items) }
{
    let mut made = Vec::new(alloc);
    for unit in units {
        made.push(pass.run(alloc, unit)?)?;
    }
    Ok(made)
}
