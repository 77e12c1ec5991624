// Two toy passes.
ghost use Rattle.std.specs.Prelude.{◌≤◌, length};
ghost use Rattle.std.proofs.Common.{ap};
ghost use Rattle.unit_names.specs.declared.naming.Naming.{Naming as NamingValue};
ghost use Rattle.pass_tests.specs.Toys.{IsCopy};
ghost use Rattle.pass_tests.specs.laws.Toys.{slow_refines, hurried_refines, toy_named_same, length_kept, nothing_held};

use crate::languages::{Cheap, Dear, Slow};
use crate::unit::ToyUnit;
use pass_core::{Lighter, Pass};
use std::alloc::{AllocError, Global};
use unit_names::KeepsNames;

/// Each turn becomes two.
#[derive(Drop)]
pub struct SlowDown;

/// Two turns become one: the first is met by none.
#[derive(Drop)]
pub struct HurryUp;

impl Pass for SlowDown {
    type From = Dear;

    type To = Slow;

    ghost matches = { IsCopy };

    ghost back = { λ layout. layout };

    ghost same_face = { λ from to m. ap (λ (n : NamingValue). n.face) m.naming };

    ghost refines = { λ from to layout each linked proper. (tt, λ room input allowed bytes. slow_refines from to input each bytes) };

    fn run(&self, alloc: Global, unit: &ToyUnit) -> Result<ToyUnit, AllocError> {
        unit.copied(alloc)
    }
}

impl Pass for HurryUp {
    type From = Slow;

    type To = Cheap;

    ghost matches = { IsCopy };

    ghost back = { λ layout. layout };

    ghost same_face = { λ from to m. ap (λ (n : NamingValue). n.face) m.naming };

    ghost refines = { λ from to layout each linked proper. (tt, λ room input allowed bytes. hurried_refines from to input each bytes) };

    fn run(&self, alloc: Global, unit: &ToyUnit) -> Result<ToyUnit, AllocError> {
        unit.copied(alloc)
    }
}

impl KeepsNames for SlowDown {
    ghost same_named = { toy_named_same };
}

impl KeepsNames for HurryUp {
    ghost same_named = { toy_named_same };
}

impl Lighter for SlowDown {
    ghost lighter = { length_kept };

    ghost holds = { λ from to function m. nothing_held };
}

impl Lighter for HurryUp {
    ghost lighter = { length_kept };

    ghost holds = { λ from to function m. nothing_held };
}
