// The laws of the passes as one, as facts that a caller gets.
ghost use Rattle.std.specs.Prelude.{◌≡◌, ℕ, ◌≤◌, List, map};
ghost use Rattle.cc_base.specs.Faces.{Linkable};
ghost use Rattle.pass_core.specs.Inputs.{AreBytes};
ghost use Rattle.pass_core.specs.Lists.{EachMatches};
ghost use Rattle.pass_core.specs.Refines.{Refines};
ghost use Rattle.pass_core.specs.Rooms.{Allowed};
ghost use Rattle.unit_passes.specs.declared.units.UnitOf.{UnitOf as UnitValue};
ghost use Rattle.clight_unit.specs.declared.unit.ClightUnit.{ClightUnit as TypedUnit};
ghost use Rattle.clight_sem.specs.Bounds.{bulk, hold};
ghost use Rattle.clight_sem.specs.Named.{named};
ghost use Rattle.clight_sem.specs.Turns.{source_after};
ghost use Rattle.rtl_lang.specs.declared.syntax.RtlParts.{RtlParts};
ghost use Rattle.rtl_lang.specs.Bounds.{bulk as rtl_bulk, hold as rtl_hold};
ghost use Rattle.rtl_lang.specs.Units.{named as rtl_named, rtl_after};
ghost use Rattle.front_passes.specs.Fronts.{Made};

use crate::passes::ToRtl;
use pass_core::{lightened, refined};
use unit_names::names_kept;

/// Other units see the same of what is made of a unit.
pub fn keeps_faces()
    ensures { (u : TypedUnit) (v : UnitValue RtlParts) → Made u v → v.naming.face ≡ u.face }
{
    refined::<ToRtl>();
}

/// Units of Rtl that are made of typed units, each without a look at another, do what these do where they are linked: they emit a
/// prefix of the same output after any number of turns, reach every finite part of it, and end as they end, unless these go wrong
/// or need more than the stack.
pub fn refines()
    ensures { (us : List TypedUnit) (vs : List (UnitValue RtlParts)) →
        EachMatches Made us vs →
        Linkable (map (λ (u : TypedUnit). u.face) us) →
        (room : ℕ) (input : List ℕ) →
        Allowed room →
        AreBytes input →
        Refines (source_after us room input) (rtl_after vs room input) }
{
    refined::<ToRtl>();
}

/// What naming needs of a unit is what it is of the typed unit: so every name means the same.
pub fn keeps_names()
    ensures unit { (u : TypedUnit) (v : UnitValue RtlParts) → Made u v → rtl_named v ≡ named u }
    ensures units { (us : List TypedUnit) (vs : List (UnitValue RtlParts)) → EachMatches Made us vs → map rtl_named vs ≡ map named us }
{
    names_kept::<ToRtl>();
}

/// No more code becomes of what is made of a unit, and none of its functions takes more of the stack.
pub fn lightens()
    ensures lighter { (u : TypedUnit) (v : UnitValue RtlParts) → Made u v → rtl_bulk v ≤ bulk u }
    ensures holds { (u : TypedUnit) (v : UnitValue RtlParts) (function : ℕ) → Made u v → rtl_hold v function ≤ hold u function }
{
    lightened::<ToRtl>();
}
