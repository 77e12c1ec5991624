// What no clause says: that the definitions are the processor's.
use crate::cases::{DIVISIONS, OPERATIONS, SHIFTS};
use crate::{Division, Flags, conditions_compare, divide, divide_signed, holds, operate, shift};
use i386_code::Cond;

#[test]
fn operations_as_on_the_processor(rt: HostRuntime) {
    for (op, a, b, word, [zero, sign, carry, overflow]) in OPERATIONS {
        let done = operate(op, a, b);
        assert_eq!(rt; done.word, word, "{op:?} {a} {b}");
        let flags = Flags {
            zero: zero == 1,
            sign: sign == 1,
            carry: carry == 1,
            overflow: overflow == 1,
        };
        assert_eq!(rt; done.flags, flags, "{op:?} {a} {b}");
    }
}

#[test]
fn shifts_as_on_the_processor(rt: HostRuntime) {
    for (op, word, count, shifted) in SHIFTS {
        assert_eq!(rt; shift(op, word, count), shifted, "{op:?} {word} {count}");
    }
}

#[test]
fn divisions_as_on_the_processor(rt: HostRuntime) {
    let parts = |division: Option<Division>| match division {
        Some(division) => Some((division.quotient, division.remainder)),
        None => None,
    };
    for (high, low, divisor, unsigned, signed) in DIVISIONS {
        assert_eq!(rt;
            parts(divide(high, low, divisor)),
            unsigned,
            "{high} {low} {divisor}"
        );
        assert_eq!(rt;
            parts(divide_signed(high, low, divisor)),
            signed,
            "{high} {low} {divisor}"
        );
    }
}

#[test]
fn conditions_on_the_flags_of_a_comparison(rt: HostRuntime) {
    let flags = |zero, sign, carry, overflow| Flags {
        zero,
        sign,
        carry,
        overflow,
    };
    // 1 and 2, as the processor compares them; and 0x80000000 and 1
    let below = flags(false, true, true, false);
    let less = flags(false, false, false, true);
    let table = [
        (Cond::B, true, false),
        (Cond::Ae, false, true),
        (Cond::E, false, false),
        (Cond::Ne, true, true),
        (Cond::Be, true, false),
        (Cond::A, false, true),
        (Cond::L, true, true),
        (Cond::Ge, false, false),
        (Cond::Le, true, true),
        (Cond::G, false, false),
    ];
    for (cond, first, second) in table {
        assert!(rt; holds(cond, below) == first, "{cond:?}");
        assert!(rt; holds(cond, less) == second, "{cond:?}");
    }
    conditions_compare();
}
