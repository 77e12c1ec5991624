// The laws of the pass, as facts that a caller gets.
ghost use Rattle.std.specs.Prelude.{ℕ, ◌≤◌, List, map};
ghost use Rattle.cc_base.specs.Faces.{Linkable};
ghost use Rattle.pass_core.specs.Alike.{RunAlike, run_measure};
ghost use Rattle.pass_core.specs.Inputs.{AreBytes};
ghost use Rattle.pass_core.specs.Lists.{EachMatches};
ghost use Rattle.pass_core.specs.Refines.{Refines};
ghost use Rattle.pass_core.specs.Rooms.{Allowed};
ghost use Rattle.pass_core.specs.Semantics.{Simulates};
ghost use Rattle.unit_passes.specs.declared.units.UnitOf.{UnitOf as UnitValue};
ghost use Rattle.core_lang.specs.declared.syntax.CoreUnit.{CoreUnit};
ghost use Rattle.core_lang.specs.Bounds.{bulk, hold};
ghost use Rattle.core_lang.specs.Units.{core, linked, core_after};
ghost use Rattle.rtl_lang.specs.declared.syntax.RtlParts.{RtlParts};
ghost use Rattle.rtl_lang.specs.Bounds.{bulk as rtl_bulk, hold as rtl_hold};
ghost use Rattle.rtl_lang.specs.Units.{rtl, linked as rtl_linked, rtl_after};
ghost use Rattle.rtl_gen.specs.Relation.{Related, measure};
ghost use Rattle.rtl_gen.specs.Units.{Matches};

use crate::pass::RtlGen;
use pass_core::{lightened, refined};

/// Each turn of linked units of Core is met by turns of the units that are made of them, which cost no more. Where it is met by
/// none the measure falls.
pub fn moves()
    ensures { (us : List CoreUnit) (vs : List (UnitValue RtlParts)) (room : ℕ) →
        EachMatches Matches us vs →
        Simulates (core (linked us room)) (rtl (rtl_linked vs room)) (RunAlike Related) (run_measure measure) }
{}

/// So these do what Core's do.
pub fn refines()
    ensures { (us : List CoreUnit) (vs : List (UnitValue RtlParts)) →
        EachMatches Matches us vs →
        Linkable (map (λ (u : CoreUnit). u.naming.face) us) →
        (room : ℕ) (input : List ℕ) →
        Allowed room →
        AreBytes input →
        Refines (core_after us room input) (rtl_after vs room input) }
{
    refined::<RtlGen>();
}

/// No more code becomes of what is made of a unit, and none of its functions takes more of the stack.
pub fn lightens()
    ensures lighter { (u : CoreUnit) (v : UnitValue RtlParts) → Matches u v → rtl_bulk v ≤ bulk u }
    ensures holds { (u : CoreUnit) (v : UnitValue RtlParts) (function : ℕ) → Matches u v → rtl_hold v function ≤ hold u function }
{
    lightened::<RtlGen>();
}
