// The pass.
ghost use Rattle.rtl_gen.specs.Units.{Matches};
ghost use Rattle.rtl_gen.specs.laws.Units.{face_same, named_same, units_refine};
ghost use Rattle.rtl_gen.specs.laws.Weighing.{unit_lighter, unit_holds};

use crate::units::rtl_unit;
use core_lang::{Core, CoreUnit};
use pass_core::{Lighter, Pass};
use rtl_lang::{Rtl, RtlUnit};
use std::alloc::{AllocError, Global};
use unit_names::KeepsNames;

/// From Core to Rtl.
#[derive(Drop)]
pub struct RtlGen;

impl Pass for RtlGen {
    type From = Core;

    type To = Rtl;

    ghost matches = { Matches };

    ghost back = { λ layout. layout };

    ghost same_face = { face_same };

    ghost refines = { λ from to layout each linked proper. (tt, λ room input allowed bytes. units_refine from to room input each bytes) };

    fn run(&self, alloc: Global, unit: &CoreUnit) -> Result<RtlUnit, AllocError> {
        rtl_unit(alloc, unit)
    }
}

impl Lighter for RtlGen {
    ghost lighter = { unit_lighter };

    ghost holds = { λ from to function m. unit_holds from to function m };
}

impl KeepsNames for RtlGen {
    ghost same_named = { named_same };
}
