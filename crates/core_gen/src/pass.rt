// The pass.
ghost use Rattle.core_gen.specs.Units.{Matches};
ghost use Rattle.core_gen.specs.laws.Units.{face_same, named_same, units_refine};
ghost use Rattle.core_gen.specs.laws.Weighing.{unit_lighter, unit_holds};

use crate::units::unit_code;
use clight_sem::Clight;
use clight_unit::ClightUnit;
use core_lang::{Core, CoreUnit};
use pass_core::{Lighter, Pass};
use std::alloc::{AllocError, Global};
use unit_names::KeepsNames;

/// From the source's typed units to Core.
#[derive(Drop)]
pub struct CoreGen;

impl Pass for CoreGen {
    type From = Clight;

    type To = Core;

    ghost matches = { Matches };

    ghost back = { λ layout. layout };

    ghost same_face = { face_same };

    ghost refines = { λ from to layout each linked proper. (tt, λ room input allowed bytes. units_refine from to room input each) };

    fn run(&self, alloc: Global, unit: &ClightUnit) -> Result<CoreUnit, AllocError> {
        unit_code(alloc, unit)
    }
}

impl Lighter for CoreGen {
    ghost lighter = { unit_lighter };

    ghost holds = { λ from to function m. unit_holds from to function m };
}

impl KeepsNames for CoreGen {
    ghost same_named = { named_same };
}
