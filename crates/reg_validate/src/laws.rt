// The laws of the pass, as facts that a caller gets.
ghost use Rattle.std.specs.Prelude.{ℕ, ◌≤◌, List, map};
ghost use Rattle.cc_base.specs.Faces.{Linkable};
ghost use Rattle.pass_core.specs.Alike.{RunAlike, run_measure};
ghost use Rattle.pass_core.specs.Inputs.{AreBytes};
ghost use Rattle.pass_core.specs.Lists.{EachMatches};
ghost use Rattle.pass_core.specs.Refines.{Refines};
ghost use Rattle.pass_core.specs.Rooms.{Allowed};
ghost use Rattle.pass_core.specs.Semantics.{Simulates};
ghost use Rattle.unit_passes.specs.declared.units.UnitOf.{UnitOf as UnitValue};
ghost use Rattle.rtl_lang.specs.declared.syntax.RtlParts.{RtlParts};
ghost use Rattle.rtl_lang.specs.Bounds.{bulk, hold};
ghost use Rattle.rtl_lang.specs.Units.{rtl, linked, rtl_after};
ghost use Rattle.ltl_lang.specs.declared.syntax.LtlParts.{LtlParts};
ghost use Rattle.ltl_lang.specs.Bounds.{bulk as ltl_bulk, hold as ltl_hold};
ghost use Rattle.ltl_lang.specs.Units.{ltl, linked as ltl_linked, ltl_after};
ghost use Rattle.reg_homes.specs.Relation.{Related};
ghost use Rattle.reg_homes.specs.Units.{Matches};
ghost use Rattle.reg_homes.specs.laws.Meeting.{measure};
ghost use Rattle.reg_homes.specs.laws.Units.{units_simulate};

use crate::pass::Allocate;
use pass_core::{lightened, refined};

/// Each turn of linked units of Rtl is met by one turn of the units that are made of them, at the same price.
pub fn moves()
    ensures { (us : List (UnitValue RtlParts)) (vs : List (UnitValue LtlParts)) (room : ℕ) →
        EachMatches Matches us vs →
        Simulates (rtl (linked us room)) (ltl (ltl_linked vs room)) (RunAlike Related) (run_measure measure) }
{}

/// So these do what Rtl's do.
pub fn refines()
    ensures { (us : List (UnitValue RtlParts)) (vs : List (UnitValue LtlParts)) →
        EachMatches Matches us vs →
        Linkable (map (λ (u : UnitValue RtlParts). u.naming.face) us) →
        (room : ℕ) (input : List ℕ) →
        Allowed room →
        AreBytes input →
        Refines (rtl_after us room input) (ltl_after vs room input) }
{
    refined::<Allocate>();
}

/// No more code becomes of what is made of a unit, and none of its functions takes more of the stack.
pub fn lightens()
    ensures lighter { (u : UnitValue RtlParts) (v : UnitValue LtlParts) → Matches u v → ltl_bulk v ≤ bulk u }
    ensures holds { (u : UnitValue RtlParts) (v : UnitValue LtlParts) (function : ℕ) → Matches u v → ltl_hold v function ≤ hold u function }
{
    lightened::<Allocate>();
}
