// Which values are cast and assigned.
ghost use Rattle.std.specs.Prelude.{◌≡◌};
ghost use Rattle.typing_types.specs.Conversions.{casts, takes_pointer, assigns};

use crate::ctype::CType;
use crate::operator::Operand;

/// Whether a value may be cast to a type.
pub fn casts(to: &CType<'_>, value: &Operand<'_>) -> bool
    ensures { result ≡ casts to.now value.now }
{
    (to.is_integer() && value.ctype.is_integer())
        || (to.is_pointer() && (value.ctype.is_pointer() || value.is_null))
}

fn takes_pointer(to: &CType<'_>, value: &Operand<'_>) -> bool
    ensures { result ≡ takes_pointer to.now value.now }
{
    value.is_null
        || (value.ctype.is_pointer()
            && (to.is_same(&value.ctype) || to.is_void_pointer() || value.ctype.is_void_pointer()))
}

/// Whether a value may be assigned to an object of a type, be an argument for it, or be returned as it.
pub fn assigns(to: &CType<'_>, value: &Operand<'_>) -> bool
    ensures { result ≡ assigns to.now value.now }
{
    (to.is_integer() && value.ctype.is_integer()) || (to.is_pointer() && takes_pointer(to, value))
}
