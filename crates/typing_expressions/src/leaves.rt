// Names and literals.
ghost use Rattle.std.specs.Prelude.{◌≡◌};
ghost use Rattle.block_mem.specs.Arithmetic.{signed_byte};
ghost use Rattle.typing_scopes.specs.Names.{entity_of};
ghost use Rattle.typing_expressions.specs.Access.{named, number, character};

use crate::conversions::unsigned;
use crate::judgement::Judgement;
use crate::node::{Form, Node};
use clight_unit::{Expression, Place};
use typing_faults::TypeKind;
use typing_scopes::{Entity, Scope};
use typing_types::int;

/// A name.
pub(crate) fn named<'t>(scope: &Scope<'t>, at: u32, name: &[u8]) -> Judgement<'t>
    ensures { result ≡ named at (entity_of scope.now name.now) }
{
    match scope.entity(name) {
        None => Judgement::broken(TypeKind::Unknown, at),
        Some(Entity::Temporary(number, ctype)) => {
            Judgement::fits(ctype.copy(), Form::Temporary(*number))
        }
        Some(Entity::Local(number, ctype)) => {
            Judgement::fits(ctype.copy(), Form::Place(Place::Local(*number)))
        }
        Some(Entity::Object(number, ctype)) => {
            Judgement::fits(ctype.copy(), Form::Place(Place::Object(*number)))
        }
        Some(Entity::Function(_)) => Judgement::broken(TypeKind::Kind, at),
    }
}

/// A number.
pub(crate) fn number<'t>(value: u32, is_unsigned: bool) -> Judgement<'t>
    ensures { result ≡ number value is_unsigned }
{
    let ctype = if is_unsigned { unsigned() } else { int() };
    Judgement::Kept(Node {
        ctype,
        is_null: value == 0,
        form: Form::Value(Expression::Constant(value)),
    })
}

// A byte as the word of the same signed number.
fn signed_byte(byte: u8) -> u32
    ensures { result ≡ signed_byte byte }
{
    if byte < 128 {
        u32::from(byte)
    } else {
        u32::from(byte) + 0xFFFF_FF00
    }
}

/// A character.
pub(crate) fn character<'t>(byte: u8) -> Judgement<'t>
    ensures { result ≡ character byte }
{
    Judgement::gives(int(), Expression::Constant(signed_byte(byte)))
}
