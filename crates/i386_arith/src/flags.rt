//! The flags, and the conditions on them.

ghost use Rattle.std.specs.Prelude.{◌≡◌};
ghost use Rattle.i386_arith.specs.Conditions.{holds};
ghost use Rattle.i386_arith.specs.Comparing.{ConditionsCompare};

use i386_code::Cond;

/// ZF, SF, CF and OF.
#[derive(Clone, Copy, Debug, PartialEq, Eq)]
pub struct Flags {
    pub zero: bool,
    pub sign: bool,
    pub carry: bool,
    pub overflow: bool,
}

/// Whether a condition holds (Intel SDM, volume 2, under Jcc).
pub fn holds(cond: Cond, flags: Flags) -> bool
    ensures { result ≡ holds cond flags }
{
    match cond {
        Cond::B => flags.carry,
        Cond::Ae => !flags.carry,
        Cond::E => flags.zero,
        Cond::Ne => !flags.zero,
        Cond::Be => flags.carry || flags.zero,
        Cond::A => !(flags.carry || flags.zero),
        Cond::L => flags.sign != flags.overflow,
        Cond::Ge => flags.sign == flags.overflow,
        Cond::Le => flags.zero || flags.sign != flags.overflow,
        Cond::G => !flags.zero && flags.sign == flags.overflow,
    }
}

/// After a comparison of two words each condition says how they compare, without signs or with them.
pub fn conditions_compare()
    ensures { ConditionsCompare }
{}
