// Core as a language.
ghost use Rattle.core_lang.specs.Bounds.{bulk, hold};
ghost use Rattle.core_lang.specs.Units.{named, core_after};
ghost use Rattle.core_lang.specs.laws.Growth.{core_grows};

use crate::syntax::CoreUnit;
use pass_core::{Bounded, Language};
use unit_names::Named;

/// Linked units of Core, whose objects are named blocks. There is one layout, and it is proper.
pub struct Core;

impl Language for Core {
    type Unit = CoreUnit;

    type Layout = ();

    ghost face = { λ u. u.naming.face };

    ghost proper = { λ units layout. Unit {0} };

    ghost after = { λ units layout room input n. core_after units room input n };

    ghost grows = { λ units layout room input n. core_grows units room input n };
}

impl Bounded for Core {
    ghost bulk = { bulk };

    ghost hold = { hold };
}

impl Named for Core {
    ghost named = { named };
}
