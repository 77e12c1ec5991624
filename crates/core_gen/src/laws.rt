// The laws of the pass, as facts that a caller gets.
ghost use Rattle.std.specs.Prelude.{ℕ, ◌≤◌, List, map};
ghost use Rattle.cc_base.specs.Faces.{Linkable};
ghost use Rattle.pass_core.specs.Inputs.{AreBytes};
ghost use Rattle.pass_core.specs.Lists.{EachMatches};
ghost use Rattle.pass_core.specs.Refines.{Refines};
ghost use Rattle.pass_core.specs.Rooms.{Allowed};
ghost use Rattle.pass_core.specs.Semantics.{Simulates};
ghost use Rattle.clight_unit.specs.declared.unit.ClightUnit.{ClightUnit as TypedUnit};
ghost use Rattle.clight_sem.specs.Bounds.{bulk, hold};
ghost use Rattle.clight_sem.specs.Functions.{linked};
ghost use Rattle.clight_sem.specs.Turns.{source, source_after};
ghost use Rattle.core_lang.specs.declared.syntax.CoreUnit.{CoreUnit};
ghost use Rattle.core_lang.specs.Bounds.{bulk as core_bulk, hold as core_hold};
ghost use Rattle.core_lang.specs.Units.{core, linked as core_linked, core_after};
ghost use Rattle.core_gen.specs.Relation.{Related, measure};
ghost use Rattle.core_gen.specs.Units.{Matches};

use crate::pass::CoreGen;
use pass_core::{lightened, refined};

/// Each turn of linked units of the source is met by steps of the units that are made of them, which cost no more. Where it is
/// met by none the measure falls.
pub fn moves()
    ensures { (us : List TypedUnit) (vs : List CoreUnit) (room : ℕ) →
        EachMatches Matches us vs →
        Simulates (source (linked us room)) (core (core_linked vs room)) (Related (linked us room)) measure }
{}

/// So these do what the source's do.
pub fn refines()
    ensures { (us : List TypedUnit) (vs : List CoreUnit) →
        EachMatches Matches us vs →
        Linkable (map (λ (u : TypedUnit). u.face) us) →
        (room : ℕ) (input : List ℕ) →
        Allowed room →
        AreBytes input →
        Refines (source_after us room input) (core_after vs room input) }
{
    refined::<CoreGen>();
}

/// No more code becomes of what is made of a unit, and none of its functions takes more of the stack.
pub fn lightens()
    ensures lighter { (u : TypedUnit) (v : CoreUnit) → Matches u v → core_bulk v ≤ bulk u }
    ensures holds { (u : TypedUnit) (v : CoreUnit) (function : ℕ) → Matches u v → core_hold v function ≤ hold u function }
{
    lightened::<CoreGen>();
}
