// Ltl as a language.
ghost use Rattle.ltl_lang.specs.Bounds.{bulk, hold};
ghost use Rattle.ltl_lang.specs.Units.{function_part, named, ltl_after};
ghost use Rattle.ltl_lang.specs.laws.Growth.{ltl_grows};

use crate::syntax::LtlFn;
use pass_core::{Bounded, Language};
use unit_names::Named;
use unit_passes::{Functions, UnitOf};

/// A unit of Ltl.
pub type LtlUnit = UnitOf<LtlFn>;

/// Linked units of Ltl, whose objects are named blocks. There is one layout, and it is proper.
pub struct Ltl;

impl Language for Ltl {
    type Unit = UnitOf<LtlFn>;

    type Layout = ();

    ghost face = { λ u. u.naming.face };

    ghost proper = { λ units layout. Unit {0} };

    ghost after = { λ units layout room input n. ltl_after units room input n };

    ghost grows = { λ units layout room input n. ltl_grows units room input n };
}

impl Bounded for Ltl {
    ghost bulk = { bulk };

    ghost hold = { hold };
}

impl Named for Ltl {
    ghost named = { named };
}

impl Functions for Ltl {
    type Function = LtlFn;

    ghost part = { function_part };
}
