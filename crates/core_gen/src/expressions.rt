// Expressions, places and tests. What goes before a value is pushed to a list of the caller's, so that it is moved only once.
ghost use Rattle.std.specs.Prelude.{◌≡◌, ◌+◌, ◌*◌, ◌%◌, min, ◌++◌, ◌∷◌, [], Some, IfOk, OnOk};
ghost use Rattle.clight_sem.specs.Bounds.{compared_by};
ghost use Rattle.core_lang.specs.declared.syntax.Expression.{out-Expression};
ghost use Rattle.core_lang.specs.declared.syntax.Expression.TheVariants as core;
ghost use Rattle.core_lang.specs.declared.syntax.Statement.TheVariants as code;
ghost use Rattle.core_gen.specs.Translation.{operand_of, set_to, compared, condition, set_by, moved, element_of, bytes_by, operated_by, operated, made_of, place_made, condition_of, second_of};

use crate::operands::Operand;
use block_mem::{Element, Op};
use clight_unit::{Expression, Place, Test};
use core_lang::{Expression as Core, Statement};
use sqlite_items::{Boxed, Items};
use std::alloc::{AllocError, Global};

/// The number of a temporary of the source. The first one that is free stands for each above.
pub fn within(number: u32, first: u32) -> u32
    ensures { result ≡ min number first }
{
    if number < first { number } else { first }
}

// A temporary gets a constant.
fn set_to(alloc: Global, temporary: u32, value: u32) -> Result<Items<Statement>, AllocError>
    ensures { IfOk result (λ l. l ≡ set_to temporary value) }
{
    let mut list = Items::new(alloc);
    list.push(Statement::Set(temporary, Core::Constant(value)))?;
    Ok(list)
}

// A value against 0.
fn compared(alloc: Global, op: Op, value: Core) -> Result<Core, AllocError>
    ensures { IfOk result (λ e. e ≡ compared op value) }
{
    let value = Boxed::new(alloc, value)?;
    let zero = Boxed::new(alloc, Core::Constant(0))?;
    Ok(Core::Binary(op, value, zero))
}

// What is not 0 where a test holds of a value.
fn condition(alloc: Global, op: Op, value: Core) -> Result<Core, AllocError>
    ensures { IfOk result (λ e. e ≡ condition op value) }
{
    match op {
        Op::Ne => Ok(value),
        _ => compared(alloc, op, value),
    }
}

// A temporary gets 1 where a test holds of a value, and else 0.
fn set_by(alloc: Global, temporary: u32, op: Op, value: Core) -> Result<Statement, AllocError>
    ensures { IfOk result (λ s. s ≡ set_by (compared_by op) temporary op value) }
{
    match op {
        Op::Ne => Ok(Statement::Set(temporary, compared(alloc, Op::Ne, value)?)),
        Op::PtrNe => Ok(Statement::Set(temporary, compared(alloc, Op::PtrNe, value)?)),
        _ => {
            let value = compared(alloc, op, value)?;
            let one = set_to(alloc, temporary, 1)?;
            let zero = set_to(alloc, temporary, 0)?;
            Ok(Statement::If(value, one, zero))
        }
    }
}

// The result is in a temporary, and those above it are free.
fn kept_in(temporary: u32) -> Result<Operand, AllocError>
    ensures { IfOk result (λ m. m ≡ record { value = core.Temporary temporary; next = temporary + 1 }) }
{
    match temporary.checked_add(1) {
        None => Err(AllocError),
        Some(next) => Ok(Operand {
            value: Core::Temporary(temporary),
            next,
        }),
    }
}

// The second test decides where the first holds, and else the result is 0.
fn both(
    alloc: Global,
    first: u32,
    value: Core,
    second: Items<Statement>,
    hoists: &mut Items<Statement>,
) -> Result<Operand, AllocError>
    ensures pushed { OnOk result (hoists.new ≡ hoists.old ++ code.If value second (set_to first 0) ∷ []) }
    ensures value { IfOk result (λ m. m ≡ record { value = core.Temporary first; next = first + 1 }) }
{
    let zero = set_to(alloc, first, 0)?;
    hoists.push(Statement::If(value, second, zero))?;
    kept_in(first)
}

// The result is 1 where the first test holds, and else the second decides.
fn either(
    alloc: Global,
    first: u32,
    value: Core,
    second: Items<Statement>,
    hoists: &mut Items<Statement>,
) -> Result<Operand, AllocError>
    ensures pushed { OnOk result (hoists.new ≡ hoists.old ++ code.If value (set_to first 1) second ∷ []) }
    ensures value { IfOk result (λ m. m ≡ record { value = core.Temporary first; next = first + 1 }) }
{
    let one = set_to(alloc, first, 1)?;
    hoists.push(Statement::If(value, one, second))?;
    kept_in(first)
}

// A pointer so many bytes further.
fn moved(alloc: Global, offset: u32, pointer: Core) -> Result<Core, AllocError>
    ensures { IfOk result (λ e. e ≡ moved offset pointer) }
{
    match pointer {
        Core::Address(symbol, plus) => Ok(Core::Address(symbol, plus.wrapping_add(offset))),
        pointer => {
            let pointer = Boxed::new(alloc, pointer)?;
            let offset = Boxed::new(alloc, Core::Constant(offset))?;
            Ok(Core::Binary(Op::PtrAdd(Element::new(1)), pointer, offset))
        }
    }
}

// How many bytes so many elements take.
fn bytes_of(number: u32, size: Element) -> u32
    ensures { result ≡ (number * size) % 4294967296 }
{
    number.wrapping_mul(size.size())
}

// How many bytes further an operator takes a pointer, where this is a constant.
fn bytes_by(op: &Op, count: &Core) -> Option<u32>
    ensures { result ≡ bytes_by (element_of op.now) (out-Expression count.now) }
{
    match op {
        Op::PtrAdd(size) => match count {
            Core::Constant(number) => Some(bytes_of(*number, *size)),
            _ => None,
        },
        _ => None,
    }
}

fn two(alloc: Global, op: Op, left: Core, right: Core) -> Result<Core, AllocError>
    ensures { IfOk result (λ e. e ≡ core.Binary op left right) }
{
    let left = Boxed::new(alloc, left)?;
    let right = Boxed::new(alloc, right)?;
    Ok(Core::Binary(op, left, right))
}

// An operator on two values, which adds so many bytes to the left one where this is the address of an object.
fn added(alloc: Global, op: Op, left: Core, right: Core, bytes: u32) -> Result<Core, AllocError>
    ensures { IfOk result (λ e. e ≡ operated_by (Some bytes) (out-Expression left) op left right) }
{
    match left {
        Core::Address(symbol, plus) => Ok(Core::Address(symbol, plus.wrapping_add(bytes))),
        left => {
            let left = Boxed::new(alloc, left)?;
            let right = Boxed::new(alloc, right)?;
            Ok(Core::Binary(op, left, right))
        }
    }
}

// An operator on two values. The address of an object takes a constant number of elements up.
fn operated(alloc: Global, op: Op, left: Core, right: Core) -> Result<Core, AllocError>
    ensures { IfOk result (λ e. e ≡ operated op left right) }
{
    match bytes_by(&op, &right) {
        None => two(alloc, op, left, right),
        Some(bytes) => added(alloc, op, left, right, bytes),
    }
}

/// What is made of an expression, where this temporary and those above it are free. What goes before the value is pushed.
#[cycle(made)]
pub fn made_value(
    alloc: Global,
    expression: &Expression,
    first: u32,
    hoists: &mut Items<Statement>,
) -> Result<Operand, AllocError>
    ensures pushed { OnOk result (hoists.new ≡ hoists.old ++ (made_of expression.now first).hoists) }
    ensures value { IfOk result (λ m. m ≡ operand_of (made_of expression.now first)) }
{
    let (value, next) = match expression {
        Expression::Constant(number) => (Core::Constant(*number), first),
        Expression::Temporary(number) => (Core::Temporary(within(*number, first)), first),
        Expression::Load(width, place) => {
            let place = made_place(alloc, place.get(), first, hoists)?;
            (
                Core::Load(*width, Boxed::new(alloc, place.value)?),
                place.next,
            )
        }
        Expression::Decayed(place) | Expression::Address(place) => {
            return made_place(alloc, place.get(), first, hoists);
        }
        Expression::Unary(op, operand) => {
            let operand = made_value(alloc, operand.get(), first, hoists)?;
            (
                Core::Unary(*op, Boxed::new(alloc, operand.value)?),
                operand.next,
            )
        }
        Expression::Binary(op, left, right) => {
            let left = made_value(alloc, left.get(), first, hoists)?;
            let right = made_value(alloc, right.get(), left.next, hoists)?;
            (operated(alloc, *op, left.value, right.value)?, right.next)
        }
        Expression::Both(left, right) => {
            let left = condition_of(alloc, left.get(), first, hoists)?;
            let second = second_of(alloc, right.get(), first)?;
            return both(alloc, first, left.value, second, hoists);
        }
        Expression::Either(left, right) => {
            let left = condition_of(alloc, left.get(), first, hoists)?;
            let second = second_of(alloc, right.get(), first)?;
            return either(alloc, first, left.value, second, hoists);
        }
    };
    Ok(Operand { value, next })
}

/// What is made of a place: the value is its address. What goes before it is pushed.
#[cycle(made)]
pub fn made_place(
    alloc: Global,
    place: &Place,
    first: u32,
    hoists: &mut Items<Statement>,
) -> Result<Operand, AllocError>
    ensures pushed { OnOk result (hoists.new ≡ hoists.old ++ (place_made place.now first).hoists) }
    ensures value { IfOk result (λ m. m ≡ operand_of (place_made place.now first)) }
{
    let (value, next) = match place {
        Place::Object(symbol) => (Core::Address(*symbol, 0), first),
        Place::Local(index) => (Core::Local(*index), first),
        Place::Deref(pointer) => return made_value(alloc, pointer.get(), first, hoists),
        Place::Index(size, array, index) => {
            let array = made_value(alloc, array.get(), first, hoists)?;
            let index = made_value(alloc, index.get(), array.next, hoists)?;
            let op = Op::PtrAdd(*size);
            (operated(alloc, op, array.value, index.value)?, index.next)
        }
        Place::Member(offset, whole) => {
            let whole = made_place(alloc, whole.get(), first, hoists)?;
            (moved(alloc, *offset, whole.value)?, whole.next)
        }
        Place::Arrow(offset, pointer) => {
            let pointer = made_value(alloc, pointer.get(), first, hoists)?;
            (moved(alloc, *offset, pointer.value)?, pointer.next)
        }
    };
    Ok(Operand { value, next })
}

/// What is made of a test: the value is not 0 where it holds. What goes before it is pushed.
#[cycle(made)]
pub fn condition_of(
    alloc: Global,
    test: &Test,
    first: u32,
    hoists: &mut Items<Statement>,
) -> Result<Operand, AllocError>
    ensures pushed { OnOk result (hoists.new ≡ hoists.old ++ (condition_of test.now first).hoists) }
    ensures value { IfOk result (λ m. m ≡ operand_of (condition_of test.now first)) }
{
    let made = made_value(alloc, &test.value, first, hoists)?;
    let value = condition(alloc, test.differs, made.value)?;
    Ok(Operand {
        value,
        next: made.next,
    })
}

// A temporary gets 1 where a test holds, and else 0.
#[cycle(made)]
fn second_of(alloc: Global, test: &Test, temporary: u32) -> Result<Items<Statement>, AllocError>
    ensures { IfOk result (λ l. l ≡ second_of test.now temporary) }
{
    let mut list = Items::new(alloc);
    let made = made_value(alloc, &test.value, temporary, &mut list)?;
    list.push(set_by(alloc, temporary, test.differs, made.value)?)?;
    Ok(list)
}
