//! Division of two words by one.

ghost use Rattle.std.specs.Prelude.{◌≡◌};
ghost use Rattle.i386_arith.specs.Division.{double_word, divided, signed_divided};

/// A quotient and a remainder.
#[derive(Clone, Copy, Debug, PartialEq, Eq)]
pub struct Division {
    pub quotient: u32,
    pub remainder: u32,
}

fn double_word(high: u32, low: u32) -> u64
    ensures { result ≡ double_word high low }
{
    u64::from(high) * 0x1_0000_0000 + u64::from(low)
}

/// Divides the 64 bits of two words, without signs. None: the divisor is 0, or the quotient takes more than 32 bits
/// (Intel SDM, volume 2, under DIV).
pub fn divide(high: u32, low: u32, divisor: u32) -> Option<Division>
    ensures { result ≡ divided high low divisor }
{
    if divisor == 0 {
        return None;
    }
    let dividend = double_word(high, low);
    let quotient = dividend / u64::from(divisor);
    if quotient > 0xffff_ffff {
        return None;
    }
    Some(Division {
        quotient: quotient as u32,
        remainder: (dividend % u64::from(divisor)) as u32,
    })
}

/// Divides the 64 bits of two words as signed numbers, cutting the quotient off toward zero; the remainder has the
/// dividend's sign. None: the divisor is 0, or the quotient is no signed word (Intel SDM, volume 2, under IDIV).
pub fn divide_signed(high: u32, low: u32, divisor: u32) -> Option<Division>
    ensures { result ≡ signed_divided high low divisor }
{
    let dividend = double_word(high, low).cast_signed();
    let divisor = i64::from(divisor.cast_signed());
    let quotient = dividend.checked_div(divisor)?;
    let remainder = dividend % divisor;
    if quotient < -0x8000_0000 || quotient > 0x7fff_ffff {
        return None;
    }
    Some(Division {
        quotient: (quotient as i32).cast_unsigned(),
        remainder: (remainder as i32).cast_unsigned(),
    })
}
