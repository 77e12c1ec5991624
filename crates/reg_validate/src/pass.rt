// The pass.
ghost use Rattle.unit_names.specs.declared.naming.Naming.{Naming as NamingValue};
ghost use Rattle.reg_homes.specs.Homes.{Placed};
ghost use Rattle.reg_homes.specs.Units.{Matches};
ghost use Rattle.reg_homes.specs.laws.Units.{face_same, named_same, part_same, units_refine};
ghost use Rattle.reg_homes.specs.laws.Weighing.{unit_lighter, unit_holds};

use crate::functions::with_fixed_homes;
use ltl_lang::{Ltl, LtlFn, LtlUnit};
use pass_core::{Lighter, Pass};
use rtl_lang::{Rtl, RtlFn, RtlUnit};
use std::alloc::{AllocError, Global};
use unit_names::{KeepsNames, Naming};
use unit_passes::{FunctionPass, run_unit};

/// From Rtl to Ltl. Every function gets the fixed homes.
#[derive(Drop)]
pub struct Allocate;

impl FunctionPass for Allocate {
    type From = Rtl;

    type To = Ltl;

    ghost matches = { λ naming from to. Placed from to };

    fn run(&self, alloc: Global, naming: &Naming, function: &RtlFn) -> Result<LtlFn, AllocError> {
        with_fixed_homes(alloc, function)
    }

    ghost same_part = { λ naming from to made. part_same from to made };
}

impl Pass for Allocate {
    type From = Rtl;

    type To = Ltl;

    ghost matches = { Matches };

    ghost back = { λ layout. layout };

    ghost same_face = { face_same };

    ghost refines = { λ from to layout each linked proper. (tt, λ room input allowed bytes. units_refine from to room input each bytes) };

    fn run(&self, alloc: Global, unit: &RtlUnit) -> Result<LtlUnit, AllocError> {
        run_unit(self, alloc, unit)
    }
}

impl Lighter for Allocate {
    ghost lighter = { unit_lighter };

    ghost holds = { λ from to function m. unit_holds from to function m };
}

impl KeepsNames for Allocate {
    ghost same_named = { named_same };
}
