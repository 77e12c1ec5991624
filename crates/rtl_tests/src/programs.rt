// Whole programs of one or several units: what they emit and how they end, by hand, by `mean` and in Rtl.
ghost use Rattle.std.specs.Prelude.{length, ◌≤◌};

use crate::code::RtlCode;
use clight_unit::ClightUnit;
use front_passes::front;
use pass_core::run_all;
use std::alloc::{AllocError, Global};
use std::test::Fail;
use test_programs::{Target, differing};
use test_runs::{Ran, run};

// How many steps a run may take.
const STEPS: u32 = 1_000_000;

// How much stack all active calls may need together, in bytes: as much as `mean` gives them.
const ROOM: u32 = 1_048_512;

struct InRtl;

impl Target for InRtl {
    fn run(&self, alloc: Global, units: &[ClightUnit], input: &[u8]) -> Result<Ran, AllocError> {
        let made = run_all(&front(), alloc, units)?;
        let code = RtlCode {
            units: made.as_slice(),
        };
        run(&code, alloc, units, ROOM, input, STEPS)
    }
}

#[test]
fn programs_come_to_the_same_in_rtl(rt: HostRuntime) -> Result<(), Fail> {
    let differing = differing(rt.alloc(), &InRtl)?;
    assert!(rt; differing.is_empty(), "{differing:?}");
    Ok(())
}
