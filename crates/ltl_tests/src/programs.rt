// Whole programs of one or several units: what they emit and how they end, by hand, by `mean` and in Ltl.
ghost use Rattle.std.specs.Prelude.{length, ◌≤◌};

use crate::code::LtlCode;
use clight_unit::ClightUnit;
use front_passes::{ToRtl, front};
use pass_core::{Then, run_all};
use reg_validate::Allocate;
use std::alloc::{AllocError, Global};
use std::test::Fail;
use test_programs::{Target, differing};
use test_runs::{Ran, run};

// How many steps a run may take.
const STEPS: u32 = 1_000_000;

// How much stack all active calls may need together, in bytes: as much as `mean` gives them.
const ROOM: u32 = 1_048_512;

// All passes down to Ltl.
fn to_ltl() -> Then<ToRtl, Allocate> {
    Then {
        first: front(),
        second: Allocate,
    }
}

struct InLtl;

impl Target for InLtl {
    fn run(&self, alloc: Global, units: &[ClightUnit], input: &[u8]) -> Result<Ran, AllocError> {
        let made = run_all(&to_ltl(), alloc, units)?;
        let code = LtlCode {
            units: made.as_slice(),
        };
        run(&code, alloc, units, ROOM, input, STEPS)
    }
}

#[test]
fn programs_come_to_the_same_in_ltl(rt: HostRuntime) -> Result<(), Fail> {
    let differing = differing(rt.alloc(), &InLtl)?;
    assert!(rt; differing.is_empty(), "{differing:?}");
    Ok(())
}
