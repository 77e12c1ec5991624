// What the parts of an object come to.
ghost use Rattle.std.specs.Prelude.{◌≡◌, ◌≤◌, ◌+◌, ◌%◌, ℕ, List, Option, Some, length, slice_index};
ghost use Rattle.text_grammar.specs.declared.tree.Initialiser.{Initialiser};
ghost use Rattle.text_grammar.specs.declared.tree.Initialised.{Initialised};
ghost use Rattle.typing_types.specs.Types.{Derived};
ghost use Rattle.typing_types.specs.Sizes.{size_of};
ghost use Rattle.typing_types.specs.Widths.{largest};
ghost use Rattle.typing_scopes.specs.Visible.{Visible};
ghost use Rattle.typing_initialisers.specs.Data.{Part, nothing, with_parts};
ghost use Rattle.typing_initialisers.specs.Standing.{Within, AtFours, byte_in, words_in};
ghost use Rattle.typing_initialisers.specs.Members.{IsSound, AreLaid, IsFour, AreAligned};
ghost use Rattle.typing_initialisers.specs.Initialisers.{fills};
ghost use Rattle.typing_initialisers.specs.Objects.{initial_data};

/// Parts that are in order stand where they say, and all other bytes are zero; the pointers are those of the parts.
pub fn parts_stand_at_their_places()
    ensures bytes { (to : ℕ) (ps : List Part) (i : ℕ) → Within 0 to ps → slice_index (with_parts nothing ps).bytes i ≡ byte_in ps i }
    ensures words { (ps : List Part) → (with_parts nothing ps).words ≡ words_in ps }
{}

/// Where the members of structs stand in order, each in its struct, the parts that an initialiser gives to an object stand in order
/// in the object, and what it begins with is no longer than the object. Where the members are aligned too, pointers stand at multiples
/// of four.
pub fn parts_stand_in_their_object()
    ensures parts { (scope : Visible) → AreLaid scope → (i : Initialiser) (t : Derived) (n at : ℕ) → IsSound t → size_of scope.layouts t ≡ Some n → n ≤ largest → Within at (at + n) (fills scope i t at).parts }
    ensures bytes { (scope : Visible) → AreLaid scope → (i : Option Initialised) (t : Derived) (n : ℕ) → IsSound t → size_of scope.layouts t ≡ Some n → n ≤ largest → length (initial_data scope t i).bytes ≤ n }
    ensures pointers { (scope : Visible) → AreAligned scope → (i : Initialiser) (t : Derived) (at : ℕ) → (IsFour scope.layouts t → at % 4 ≡ 0) → AtFours (fills scope i t at).parts }
{}
