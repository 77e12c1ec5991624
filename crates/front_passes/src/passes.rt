// The passes as one.
use core_gen::CoreGen;
use pass_core::Then;
use rtl_gen::RtlGen;

/// From the source's typed units to Rtl, through Core.
pub type ToRtl = Then<CoreGen, RtlGen>;

/// The pass. It takes no memory until it is run.
pub fn front() -> ToRtl {
    Then {
        first: CoreGen,
        second: RtlGen,
    }
}
