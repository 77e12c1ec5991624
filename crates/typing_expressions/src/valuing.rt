// Values of expressions.
ghost use Rattle.std.specs.Prelude.{◌≡◌, IfOk, Bool};
ghost use Rattle.typing_expressions.specs.Values.{decayed, value_with, read_at, valued_at, valued};
ghost use Rattle.typing_types.specs.Types.{class_of};

use crate::node::{Form, Node, TypedValue};
use clight_unit::{Expression, Place};
use sqlite_items::Boxed;
use std::alloc::{AllocError, Global};
use typing_types::{CType, Class, Operand, width_of};

/// A pointer to the first element of an array. The only error is that one pointer more cannot be counted, which comes to want of
/// memory.
fn decayed<'t>(ctype: &CType<'t>) -> Result<CType<'t>, AllocError>
    ensures { IfOk result (λ t. t ≡ decayed ctype.now) }
{
    match ctype.element() {
        Some(element) => match element.pointer_to() {
            Some(pointer) => Ok(pointer),
            None => Err(AllocError),
        },
        None => Ok(ctype.copy()),
    }
}

fn value_with<'t>(ctype: CType<'t>, is_null: bool, expression: Expression) -> TypedValue<'t>
    ensures { result ≡ value_with ctype.entry is_null expression }
{
    TypedValue {
        operand: Operand { ctype, is_null },
        expression,
    }
}

// What a place of this type holds.
fn read<'t>(
    alloc: Global,
    ctype: CType<'t>,
    place: Place,
) -> Result<Option<TypedValue<'t>>, AllocError>
    ensures { IfOk result (λ v. v ≡ read_at (class_of ctype.entry) ctype.entry place) }
{
    if let Class::Array = ctype.class() {
        let pointer = decayed(&ctype)?;
        let place = Boxed::new(alloc, place)?;
        return Ok(Some(value_with(pointer, false, Expression::Decayed(place))));
    }
    let Some(width) = width_of(&ctype) else {
        return Ok(None);
    };
    let place = Boxed::new(alloc, place)?;
    Ok(Some(value_with(ctype, false, Expression::Load(width, place))))
}

/// The value of an expression. None exactly where it has none, as a whole struct. The only error is want of memory.
pub fn valued<'t>(alloc: Global, node: Node<'t>) -> Result<Option<TypedValue<'t>>, AllocError>
    ensures { IfOk result (λ v. v ≡ valued node.entry) }
{
    let Node {
        ctype,
        is_null,
        form,
    } = node;
    match form {
        Form::Value(expression) => Ok(Some(value_with(ctype, is_null, expression))),
        Form::Temporary(number) => {
            let expression = Expression::Temporary(number);
            Ok(Some(value_with(ctype, false, expression)))
        }
        Form::Place(place) => read(alloc, ctype, place),
    }
}
