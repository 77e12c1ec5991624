// Values, places and conditions.
ghost use Rattle.std.specs.Prelude.{◌≡◌, Some, None, get_or, option_map, IfOk};
ghost use Rattle.block_mem.specs.Integers.{on_word};
ghost use Rattle.block_mem.specs.Operators.{of_word};
ghost use Rattle.clight_sem.specs.Values.{start_of, value_of, place_of, holds, convert, converted, all_converted, truth_value, is_true, member};
ghost use Rattle.mean_run.specs.Scenes.{seen};

use crate::scene::Scene;
use block_mem::{BlockName, Op, Value, on_word};
use clight_unit::{Expression, Place, Test, Value as Converted};
use sqlite_items::Items;
use std::alloc::{AllocError, Global};

// The first byte of a block.
fn start_of(block: BlockName) -> Value
    ensures { result ≡ start_of block }
{
    Value::Ptr { block, offset: 0 }
}

fn truth_value(holds: bool) -> Value
    ensures { Some result ≡ truth_value (Some holds) }
{
    Value::Int(u32::from(holds))
}

fn is_true(value: Value) -> Option<bool>
    ensures { result ≡ is_true value }
{
    match value {
        Value::Int(number) => Some(number != 0),
        Value::Ptr { .. } => None,
    }
}

// The place of a member of what lies at a place.
fn member(offset: u32, place: Value) -> Option<Value>
    ensures { result ≡ member offset (Some place) }
{
    match place {
        Value::Int(_) => None,
        Value::Ptr { block, offset: at } => Some(Value::Ptr {
            block,
            offset: at.wrapping_add(offset),
        }),
    }
}

// The temporary of this number, where it is set.
fn temporary(scene: &Scene<'_>, number: u32) -> Option<Value>
    ensures { result ≡ get_or scene.now.temporaries.now number None }
{
    match scene.temporaries.get(number as usize) {
        Some(value) => *value,
        None => None,
    }
}

// The object that a symbol of this number means.
fn object(scene: &Scene<'_>, symbol: u32) -> Option<Value>
    ensures { result ≡ option_map start_of (get_or scene.now.objects.now symbol None) }
{
    match scene.objects.get(symbol as usize) {
        Some(Some(block)) => Some(start_of(*block)),
        _ => None,
    }
}

/// The value of an expression (C11, 6.5). None where it goes wrong.
#[cycle(value)]
pub fn value_of(scene: &Scene<'_>, expression: &Expression) -> Option<Value>
    ensures { result ≡ value_of (seen scene.now) expression.now }
{
    match expression {
        Expression::Constant(number) => Some(Value::Int(*number)),
        Expression::Temporary(number) => temporary(scene, *number),
        Expression::Load(width, place) => {
            let at = pointer_to(scene, place.get())?;
            scene.memory.load(&at, *width)
        }
        Expression::Decayed(place) | Expression::Address(place) => pointer_to(scene, place.get()),
        Expression::Unary(op, operand) => {
            let operand = value_of(scene, operand.get())?;
            scene.memory.apply(*op, &operand, &Value::Int(0))
        }
        Expression::Binary(op, left, right) => {
            let left = value_of(scene, left.get())?;
            let right = value_of(scene, right.get())?;
            scene.memory.apply(*op, &left, &right)
        }
        Expression::Both(first, second) => {
            if holds(scene, first.get())? {
                Some(truth_value(holds(scene, second.get())?))
            } else {
                Some(Value::Int(0))
            }
        }
        Expression::Either(first, second) => {
            if holds(scene, first.get())? {
                Some(Value::Int(1))
            } else {
                Some(truth_value(holds(scene, second.get())?))
            }
        }
    }
}

/// Whether a condition holds: its value differs from 0, or from null. None where it goes wrong.
#[cycle(value)]
pub fn holds(scene: &Scene<'_>, test: &Test) -> Option<bool>
    ensures { result ≡ holds (seen scene.now) test.now }
{
    let value = value_of(scene, &test.value)?;
    is_true(scene.memory.apply(test.differs, &value, &Value::Int(0))?)
}

/// The place that a place's expression names: a pointer, or null. None where it goes wrong.
#[cycle(value)]
pub fn pointer_to(scene: &Scene<'_>, place: &Place) -> Option<Value>
    ensures { result ≡ place_of (seen scene.now) place.now }
{
    match place {
        Place::Object(symbol) => object(scene, *symbol),
        Place::Local(index) => Some(start_of(BlockName::Local {
            activation: scene.activation,
            index: *index,
        })),
        Place::Deref(pointer) => value_of(scene, pointer.get()),
        Place::Index(size, array, index) => {
            let array = value_of(scene, array.get())?;
            let index = value_of(scene, index.get())?;
            scene.memory.apply(Op::PtrAdd(*size), &array, &index)
        }
        Place::Member(offset, whole) => member(*offset, pointer_to(scene, whole.get())?),
        Place::Arrow(offset, pointer) => member(*offset, value_of(scene, pointer.get())?),
    }
}

/// A value converted to the type of where it goes (C11, 6.3.1.3). A pointer is kept, or has no conversion.
pub fn convert(conversion: &Op, value: Value) -> Option<Value>
    ensures { result ≡ convert conversion.now value }
{
    match conversion {
        Op::Keep => Some(value),
        _ => converted_word(conversion, value),
    }
}

// An integer converted by an operator.
fn converted_word(conversion: &Op, value: Value) -> Option<Value>
    ensures { result ≡ of_word (on_word conversion.now) value }
{
    match value {
        Value::Int(number) => Some(Value::Int(on_word(*conversion, number)?)),
        Value::Ptr { .. } => None,
    }
}

/// A value that is converted to the type of where it goes. None where it goes wrong.
pub fn converted(scene: &Scene<'_>, value: &Converted) -> Option<Value>
    ensures { result ≡ converted (seen scene.now) value.now }
{
    convert(&value.conversion, value_of(scene, &value.expression)?)
}

/// Values from left to right, each converted. None where one goes wrong.
pub fn all_converted(
    alloc: Global,
    scene: &Scene<'_>,
    values: &[Converted],
) -> Result<Option<Items<Value>>, AllocError>
    ensures { IfOk result (λ found. found ≡ all_converted (seen scene.now) values.now) }
{
    let mut found = Items::new(alloc);
    'values: for value in values {
        let Some(value) = converted(scene, value) else {
            return Ok(None);
        };
        found.push(value)?;
    }
    Ok(Some(found))
}
