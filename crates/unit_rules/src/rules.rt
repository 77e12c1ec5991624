// Passes keep the rules.
ghost use Rattle.unit_rules.specs.Rules.{Kept};

use pass_core::{Bounded, Lighter};
use unit_names::{KeepsNames, Named};

/// What a pass keeps that keeps names and raises neither bound: where the source's unit keeps the rules, the target's does.
pub fn rules_kept<P: KeepsNames + Lighter>()
where
    P::From: Named + Bounded,
    P::To: Named + Bounded,
    ensures { (from : P.From.Unit) (to : P.To.Unit) →
        P.matches from to →
        Kept (P.From.named from) (P.From.bulk from) (P.From.hold from) →
        Kept (P.To.named to) (P.To.bulk to) (P.To.hold to) }
{}
