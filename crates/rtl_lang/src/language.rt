// Rtl as a language.
ghost use Rattle.rtl_lang.specs.Bounds.{bulk, hold};
ghost use Rattle.rtl_lang.specs.Units.{function_part, named, rtl_after};
ghost use Rattle.rtl_lang.specs.laws.Growth.{rtl_grows};

use crate::syntax::RtlFn;
use pass_core::{Bounded, Language};
use unit_names::Named;
use unit_passes::{Functions, UnitOf};

/// A unit of Rtl.
pub type RtlUnit = UnitOf<RtlFn>;

/// Linked units of Rtl, whose objects are named blocks. There is one layout, and it is proper.
pub struct Rtl;

impl Language for Rtl {
    type Unit = UnitOf<RtlFn>;

    type Layout = ();

    ghost face = { λ u. u.naming.face };

    ghost proper = { λ units layout. Unit {0} };

    ghost after = { λ units layout room input n. rtl_after units room input n };

    ghost grows = { λ units layout room input n. rtl_grows units room input n };
}

impl Bounded for Rtl {
    ghost bulk = { bulk };

    ghost hold = { hold };
}

impl Named for Rtl {
    ghost named = { named };
}

impl Functions for Rtl {
    type Function = RtlFn;

    ghost part = { function_part };
}
