// Assignments and calls. The code of each is pushed to a list of the caller's.
ghost use Rattle.std.specs.Prelude.{◌≡◌, ◌+◌, ◌++◌, IfOk, OnOk};
ghost use Rattle.core_gen.specs.Translation.{operands_of, converted_by, assigned_to, assignment, all_made, finish, place_kept, own_place, called, call, simple_code, simple_if_any, return_code};

use crate::expressions::{made_place, made_value, within};
use crate::operands::Operands;
use block_mem::Op;
use clight_unit::{Assignment, Call, Simple, Target, Value};
use core_lang::{Expression as Core, Statement as Code};
use sqlite_items::{Boxed, Items};
use std::alloc::{AllocError, Global};

fn converted(alloc: Global, conversion: Op, value: Core) -> Result<Core, AllocError>
    ensures { IfOk result (λ e. e ≡ converted_by conversion value) }
{
    match conversion {
        Op::Keep => Ok(value),
        _ => Ok(Core::Unary(conversion, Boxed::new(alloc, value)?)),
    }
}

fn assigned_to(
    alloc: Global,
    base: u32,
    target: &Target,
    value: &Value,
    list: &mut Items<Code>,
) -> Result<(), AllocError>
    ensures { OnOk result (list.new ≡ list.old ++ assigned_to target.now base value.now) }
{
    match target {
        Target::Temporary(number) => {
            let made = made_value(alloc, &value.expression, base, list)?;
            let new = converted(alloc, value.conversion, made.value)?;
            list.push(Code::Set(within(*number, base), new))
        }
        Target::Place(width, place) => {
            let place = made_place(alloc, place, base, list)?;
            let made = made_value(alloc, &value.expression, place.next, list)?;
            let new = converted(alloc, value.conversion, made.value)?;
            list.push(Code::Store(*width, place.value, new))
        }
    }
}

pub(crate) fn assignment(
    alloc: Global,
    base: u32,
    new: &Assignment,
    list: &mut Items<Code>,
) -> Result<(), AllocError>
    ensures { OnOk result (list.new ≡ list.old ++ assignment base new.now) }
{
    assigned_to(alloc, base, &new.target, &new.value, list)
}

// Arguments, from left to right. What goes before their values is pushed.
fn arguments(
    alloc: Global,
    values: &[Value],
    first: u32,
    hoists: &mut Items<Code>,
) -> Result<Operands, AllocError>
    ensures pushed { OnOk result (hoists.new ≡ hoists.old ++ (all_made values.now first).hoists) }
    ensures values { IfOk result (λ m. m ≡ operands_of (all_made values.now first)) }
{
    let mut list = Items::new(alloc);
    let mut next = first;
    'values: for value in values {
        let made = made_value(alloc, &value.expression, next, hoists)?;
        list.push(converted(alloc, value.conversion, made.value)?)?;
        next = made.next;
    }
    Ok(Operands { values: list, next })
}

// What stands behind a call.
fn finish(
    alloc: Global,
    base: u32,
    from: u32,
    conversion: Op,
    target: &Target,
    list: &mut Items<Code>,
) -> Result<(), AllocError>
    ensures { OnOk result (list.new ≡ list.old ++ finish base from conversion target.now) }
{
    let new = converted(alloc, conversion, Core::Temporary(from))?;
    match target {
        Target::Temporary(number) => list.push(Code::Set(within(*number, base), new)),
        Target::Place(width, _) => list.push(Code::Store(*width, Core::Temporary(base), new)),
    }
}

// The place of a result is found first and kept.
fn place_kept(
    alloc: Global,
    base: u32,
    target: &Option<Target>,
    list: &mut Items<Code>,
) -> Result<(), AllocError>
    ensures { OnOk result (list.new ≡ list.old ++ place_kept base target.now) }
{
    match target {
        None | Some(Target::Temporary(_)) => Ok(()),
        Some(Target::Place(_, place)) => {
            let made = made_place(alloc, place, base, list)?;
            list.push(Code::Set(base, made.value))
        }
    }
}

// The temporary that takes a result as it comes.
fn own_place(target: &Option<Target>, conversion: Op) -> Option<u32>
    ensures { result ≡ own_place target.now conversion }
{
    match (target, conversion) {
        (Some(Target::Temporary(number)), Op::Keep) => Some(*number),
        _ => None,
    }
}

fn called(
    alloc: Global,
    base: u32,
    new: &Call,
    values: Items<Core>,
    list: &mut Items<Code>,
) -> Result<(), AllocError>
    ensures { OnOk result (list.new ≡ list.old ++ called base new.now.conversion new.now.target new.now.callee values) }
{
    if let Some(number) = own_place(&new.target, new.conversion) {
        return list.push(Code::Call(Some(within(number, base)), new.callee, values));
    }
    match &new.target {
        None => list.push(Code::Call(None, new.callee, values)),
        Some(target) => {
            let Some(from) = base.checked_add(1) else {
                return Err(AllocError);
            };
            list.push(Code::Call(Some(from), new.callee, values))?;
            finish(alloc, base, from, new.conversion, target, list)
        }
    }
}

fn call(alloc: Global, base: u32, new: &Call, list: &mut Items<Code>) -> Result<(), AllocError>
    ensures { OnOk result (list.new ≡ list.old ++ call base new.now) }
{
    let Some(first) = base.checked_add(1) else {
        return Err(AllocError);
    };
    place_kept(alloc, base, &new.target, list)?;
    let made = arguments(alloc, new.arguments.as_slice(), first, list)?;
    called(alloc, base, new, made.values, list)
}

pub(crate) fn simple_code(
    alloc: Global,
    base: u32,
    simple: &Simple,
    list: &mut Items<Code>,
) -> Result<(), AllocError>
    ensures { OnOk result (list.new ≡ list.old ++ simple_code base simple.now) }
{
    match simple {
        Simple::Assign(new) => assignment(alloc, base, new, list),
        Simple::Call(made) => call(alloc, base, made, list),
    }
}

pub(crate) fn simple_if_any(
    alloc: Global,
    base: u32,
    simple: &Option<Simple>,
    list: &mut Items<Code>,
) -> Result<(), AllocError>
    ensures { OnOk result (list.new ≡ list.old ++ simple_if_any base simple.now) }
{
    match simple {
        None => Ok(()),
        Some(simple) => simple_code(alloc, base, simple, list),
    }
}

pub(crate) fn return_code(
    alloc: Global,
    base: u32,
    value: &Option<Value>,
    list: &mut Items<Code>,
) -> Result<(), AllocError>
    ensures { OnOk result (list.new ≡ list.old ++ return_code base value.now) }
{
    match value {
        None => list.push(Code::Return(None)),
        Some(value) => {
            let made = made_value(alloc, &value.expression, base, list)?;
            let returned = converted(alloc, value.conversion, made.value)?;
            list.push(Code::Return(Some(returned)))
        }
    }
}
