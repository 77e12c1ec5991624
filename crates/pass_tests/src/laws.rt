// What a caller gets of a composed pass, at a program that meets all that it asks.
ghost use Rattle.std.specs.Prelude.{◌≡◌, ◌≤◌, ℕ, List, [], ◌∷◌, map, length};
ghost use Rattle.cc_base.specs.Faces.{Linkable};
ghost use Rattle.pass_core.specs.Inputs.{AreBytes};
ghost use Rattle.pass_core.specs.Lists.{Through};
ghost use Rattle.pass_core.specs.Refines.{Sound, Refines, Agrees};
ghost use Rattle.pass_core.specs.Rooms.{Allowed, usual_room};
ghost use Rattle.pass_tests.specs.declared.unit.ToyUnit.{ToyUnit as ToyValue};
ghost use Rattle.pass_tests.specs.Toys.{IsCopy, greeting, direct_after, toy_named};

use crate::passes::{HurryUp, SlowDown};
use pass_core::{Then, lightened, refined};
use unit_names::names_kept;

/// One pass and then the other.
pub type Both = Then<SlowDown, HurryUp>;

/// The unit `greeting` alone is a program, and the usual room is allowed.
pub fn greeting_is_a_program()
    ensures linked { Linkable (map (λ (u : ToyValue). u.naming.face) (greeting ∷ [])) }
    ensures allowed { Allowed usual_room }
    // Its run never goes wrong, so something is claimed of what the passes make of it.
    ensures sound { (input : List ℕ) → Sound (direct_after 2 (greeting ∷ []) input) }
{}

/// So what the passes make of it does just what it does, on every input.
pub fn greeting_is_kept()
    ensures { (made : ToyValue) → Through IsCopy IsCopy greeting made → (input : List ℕ) → AreBytes input → Agrees (direct_after 2 (greeting ∷ []) input) (direct_after 1 (made ∷ []) input) }
{
    greeting_is_a_program();
    refined::<Both>();
}

/// And the passes keep names and raise no bound.
pub fn toys_are_kept()
    ensures names { (from to : ToyValue) → Through IsCopy IsCopy from to → toy_named to ≡ toy_named from }
    ensures bulk { (from to : ToyValue) → Through IsCopy IsCopy from to → length to.bytes ≤ length from.bytes }
{
    names_kept::<Both>();
    lightened::<Both>();
}
