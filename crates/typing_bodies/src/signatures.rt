// What declarations say of functions' types.
ghost use Rattle.std.specs.Prelude.{◌≡◌, map, IfOk};
ghost use Rattle.typing_bodies.specs.Signatures.{value_base, value_type, parameter_type, signature_of};

use clight_unit::{Signature, ValueBase, ValueType};
use sqlite_items::Items;
use std::alloc::{AllocError, Global};
use text_grammar::{Base, BaseKind, Head, Parameter};
use typing_types::stars_of;

fn value_base(alloc: Global, kind: &BaseKind) -> Result<ValueBase, AllocError>
    ensures { IfOk result (λ base. base ≡ value_base kind.now) }
{
    match kind {
        BaseKind::Int => Ok(ValueBase::Int),
        BaseKind::Char => Ok(ValueBase::Char),
        BaseKind::UnsignedInt => Ok(ValueBase::UnsignedInt),
        BaseKind::UnsignedChar => Ok(ValueBase::UnsignedChar),
        BaseKind::Void => Ok(ValueBase::Void),
        BaseKind::Struct(tag) => Ok(ValueBase::Struct(Items::from_slice(alloc, tag.as_slice())?)),
    }
}

fn value_type(alloc: Global, base: &Base, stars: usize) -> Result<ValueType, AllocError>
    ensures { IfOk result (λ t. t ≡ value_type base.now stars) }
{
    Ok(ValueType {
        base: value_base(alloc, &base.kind)?,
        stars: stars_of(stars)?,
    })
}

fn parameter_types(alloc: Global, parameters: &[Parameter]) -> Result<Items<ValueType>, AllocError>
    ensures { IfOk result (λ types. types ≡ map parameter_type parameters.now) }
{
    let mut types = Items::new(alloc);
    'parameters: for parameter in parameters {
        types.push(value_type(alloc, &parameter.base, parameter.stars)?)?;
    }
    Ok(types)
}

/// What a function's head says of its type. The only error is want of memory.
pub fn signature_of(alloc: Global, head: &Head) -> Result<Signature, AllocError>
    ensures { IfOk result (λ s. s ≡ signature_of head.now) }
{
    Ok(Signature {
        result: value_type(alloc, &head.base, head.stars)?,
        parameters: parameter_types(alloc, head.parameters.as_slice())?,
    })
}
