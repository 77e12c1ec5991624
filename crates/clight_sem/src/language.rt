// The source as a language.
ghost use Rattle.std.specs.Prelude.{ℕ, List};
ghost use Rattle.cc_base.specs.Runs.{GrowsAt};
ghost use Rattle.clight_unit.specs.declared.unit.ClightUnit.{ClightUnit as UnitValue};
ghost use Rattle.clight_sem.specs.Bounds.{bulk, hold};
ghost use Rattle.clight_sem.specs.Named.{named};
ghost use Rattle.clight_sem.specs.Turns.{source_after};
ghost use Rattle.clight_sem.specs.laws.Growth.{source_grows};

use clight_unit::ClightUnit;
use pass_core::{Bounded, Language};
use unit_names::Named;

/// The source: linked typed units, whose objects are named blocks. There is one layout, and it is proper.
pub struct Clight;

impl Language for Clight {
    type Unit = ClightUnit;

    type Layout = ();

    ghost face = { λ u. u.face };

    ghost proper = { λ units layout. Unit {0} };

    ghost after = { λ units layout room input n. source_after units room input n };

    ghost grows = { λ units layout room input n. source_grows units room input n };
}

impl Bounded for Clight {
    ghost bulk = { bulk };

    ghost hold = { hold };
}

impl Named for Clight {
    ghost named = { named };
}

/// The law of the source's runs, as a fact that a caller gets: a turn only adds acts, and a run that is over stays as it is.
pub fn source_runs_grow()
    ensures { (units : List UnitValue) (room : ℕ) (input : List ℕ) (n : ℕ) → GrowsAt (source_after units room input) n }
{}
