// Three toy languages.
ghost use Rattle.std.specs.Prelude.{length};
ghost use Rattle.pass_tests.specs.Toys.{toy_named, direct_after, slow_after};
ghost use Rattle.pass_tests.specs.laws.Toys.{direct_grows, slow_grows};

use crate::unit::ToyUnit;
use pass_core::{Bounded, Language};
use unit_names::Named;

/// A byte at a turn, at the price of 2.
pub struct Dear;

/// A byte at two turns, at the price of 1 each.
pub struct Slow;

/// A byte at a turn, at the price of 1.
pub struct Cheap;

impl Language for Dear {
    type Unit = ToyUnit;

    type Layout = ();

    ghost face = { λ u. u.naming.face };

    ghost proper = { λ units layout. Unit {0} };

    ghost after = { λ units layout room input n. direct_after 2 units input n };

    ghost grows = { λ units layout room input n. direct_grows 2 units input n };
}

impl Language for Slow {
    type Unit = ToyUnit;

    type Layout = ();

    ghost face = { λ u. u.naming.face };

    ghost proper = { λ units layout. Unit {0} };

    ghost after = { λ units layout room input n. slow_after units input n };

    ghost grows = { λ units layout room input n. slow_grows units input n };
}

impl Language for Cheap {
    type Unit = ToyUnit;

    type Layout = ();

    ghost face = { λ u. u.naming.face };

    ghost proper = { λ units layout. Unit {0} };

    ghost after = { λ units layout room input n. direct_after 1 units input n };

    ghost grows = { λ units layout room input n. direct_grows 1 units input n };
}

impl Named for Dear {
    ghost named = { toy_named };
}

impl Named for Slow {
    ghost named = { toy_named };
}

impl Named for Cheap {
    ghost named = { toy_named };
}

impl Bounded for Dear {
    ghost bulk = { λ u. length u.bytes };

    ghost hold = { λ u function. 0 };
}

impl Bounded for Slow {
    ghost bulk = { λ u. length u.bytes };

    ghost hold = { λ u function. 0 };
}

impl Bounded for Cheap {
    ghost bulk = { λ u. length u.bytes };

    ghost hold = { λ u function. 0 };
}
