// The live blocks by their names.
ghost use Rattle.std.specs.Prelude.{◌≡◌, Option, Some, None, false, true, cond, not, if◌then◌else◌, IfOk, OnOk, OnErr, option_map, eqb};
ghost use Rattle.std.specs.FinMap as map;
ghost use Rattle.block_mem.specs.Blocks.{made, ended, first, live, within, inside};
ghost use Rattle.block_mem.specs.Access.{load, store};
ghost use Rattle.block_mem.specs.Arithmetic.{minus32, signed_quotient};
ghost use Rattle.block_mem.specs.Integers.{on_word, on_words};
ghost use Rattle.block_mem.specs.Operators.{equal, in_order, elements_between, moved, of_word, of_words, int_of, applied};
ghost use Rattle.cc_base.specs.Words.{add32};

use crate::access::same_name;
use crate::cells::Cells;
use crate::operator::{Element, Op, on_word, on_words};
use crate::value::{BlockName, Byte, Value, Width};
use std::alloc::{AllocError, Global};
use std::collections::HashMap;
use std::marker::Model;

/// The live blocks of a program. Contracts see a finite map from names to blocks: the bytes, and whether the block is
/// writable. A name that is not in it was never used, or the life of its block is over.
#[derive(Drop)]
pub struct Memory {
    alloc: Global,
    named: HashMap<BlockName, Cells>,
}

impl Model for Memory {
    ghost use Rattle.std.specs.FinMap as map;
    ghost use Rattle.block_mem.specs.Names.{name_cmp};
    ghost use Rattle.block_mem.specs.Blocks.{Block};
    ghost use Rattle.block_mem.specs.Codes.{coded_name, coded_block};

    ghost Value = { map.FinMap name_cmp Block };

    ghost coded = { map.code coded_name coded_block };

    ghost view = { λ s. map.from_entries s.named.entries };
}

impl Memory {
    /// No blocks.
    pub fn new(alloc: Global) -> Result<Memory, AllocError>
        ensures { IfOk result (λ m. m ≡ map.empty) }
    {
        Ok(Memory {
            alloc,
            named: HashMap::new(alloc),
        })
    }

    /// A new block of `size` bytes, which are unset. The name must be that of no live block; a refusal changes nothing.
    pub fn alloc_block(
        &mut self,
        name: BlockName,
        size: u32,
        writable: bool,
    ) -> Result<(), AllocError>
        requires { map.get self.old name ≡ None }
        ensures ok { OnOk result (self.new ≡ made self.old name size writable) }
        ensures err { OnErr result (self.new ≡ self.old) }
    {
        let cells = Cells::new(self.alloc, size, writable)?;
        self.named.insert(name, cells)?;
        Ok(())
    }

    /// Writes an initial byte into a live block, whether it is writable or not. It takes no memory.
    pub fn set_first(&mut self, name: BlockName, offset: u32, byte: Byte)
        requires { inside self.old name offset ≡ true }
        ensures { self.new ≡ first self.old name offset byte }
    {
        let Some(cells) = self.named.get_mut(&name) else {
            return;
        };
        cells.put(offset, byte);
    }

    /// Ends the life of a live block. It takes no memory.
    pub fn free_block(&mut self, name: BlockName)
        requires { live self.old name ≡ true }
        ensures { self.new ≡ ended self.old name }
    {
        let _ = self.named.remove(&name);
    }

    /// The value at a pointer, or None where the source's rules give none. It takes no memory.
    pub fn load(&self, pointer: &Value, width: Width) -> Option<Value>
        ensures { result ≡ load self.now pointer.now width }
    {
        match *pointer {
            Value::Int(_) => None,
            Value::Ptr { block, offset } => match self.named.get(&block) {
                None => None,
                Some(cells) => cells.read(offset, width),
            },
        }
    }

    // Stores a value at a pointer, where it can be; else it answers false and changes nothing.
    fn is_stored(&mut self, pointer: &Value, width: Width, value: &Value) -> bool
        ensures stored { (if result then Some self.new else None) ≡ store self.old pointer.now width value.now }
        ensures same { result ≡ false → self.new ≡ self.old }
    {
        let Value::Ptr { block, offset } = *pointer else {
            return false;
        };
        let Some(cells) = self.named.get_mut(&block) else {
            return false;
        };
        cells.write(offset, width, *value)
    }

    /// Stores a value at a pointer, or answers None and changes nothing where the source's rules give no store. It takes
    /// no memory.
    pub fn store(&mut self, pointer: &Value, width: Width, value: &Value) -> Option<()>
        ensures stored { option_map (λ _. self.new) result ≡ store self.old pointer.now width value.now }
        ensures same { result ≡ None → self.new ≡ self.old }
    {
        if self.is_stored(pointer, width, value) {
            Some(())
        } else {
            None
        }
    }
}

// The quotient of two words by the size of an element, read as signed and cut toward zero.
fn signed_quotient(a: u32, size: Element) -> u32
    ensures { result ≡ signed_quotient a size }
{
    (a.cast_signed() / size.size().cast_signed()).cast_unsigned()
}

fn minus(a: u32, b: u32) -> u32
    ensures { result ≡ minus32 a b }
{
    a.wrapping_sub(b)
}

// A pointer moved forward by a number of elements.
fn moved_forward(pointer: Value, count: Value, size: Element) -> Option<Value>
    ensures { result ≡ moved add32 pointer count size }
{
    match (pointer, count) {
        (Value::Ptr { block, offset }, Value::Int(number)) => Some(Value::Ptr {
            block,
            offset: offset.wrapping_add(number.wrapping_mul(size.size())),
        }),
        _ => None,
    }
}

// The same backward.
fn moved_back(pointer: Value, count: Value, size: Element) -> Option<Value>
    ensures { result ≡ moved minus32 pointer count size }
{
    match (pointer, count) {
        (Value::Ptr { block, offset }, Value::Int(number)) => Some(Value::Ptr {
            block,
            offset: minus(offset, number.wrapping_mul(size.size())),
        }),
        _ => None,
    }
}

// A truth value as an `int`.
fn int_of(test: Option<bool>) -> Option<Value>
    ensures { result ≡ int_of test }
{
    match test {
        Some(holds) => Some(Value::Int(u32::from(holds))),
        None => None,
    }
}

// The value of an operator with one operand on an integer.
fn of_word(op: Op, left: Value) -> Option<Value>
    ensures { result ≡ of_word (on_word op) left }
{
    match left {
        Value::Int(a) => match on_word(op, a) {
            Some(word) => Some(Value::Int(word)),
            None => None,
        },
        Value::Ptr { .. } => None,
    }
}

// The value of an operator with two operands on integers.
fn of_words(op: Op, left: Value, right: Value) -> Option<Value>
    ensures { result ≡ of_words (on_words op) left right }
{
    match (left, right) {
        (Value::Int(a), Value::Int(b)) => match on_words(op, a, b) {
            Some(word) => Some(Value::Int(word)),
            None => None,
        },
        _ => None,
    }
}

impl Memory {
    /// Whether a live block has the name. It takes no memory.
    pub fn is_live(&self, block: BlockName) -> bool
        ensures { result ≡ live self.now block }
    {
        self.named.contains_key(&block)
    }

    // Whether an offset lies in 0 to the size of a live block.
    fn within(&self, block: BlockName, offset: u32) -> bool
        ensures { result ≡ within self.now block offset }
    {
        match self.named.get(&block) {
            Some(cells) => offset as usize <= cells.len(),
            None => false,
        }
    }

    // Whether an offset lies below the size of a live block.
    pub(crate) fn inside(&self, block: BlockName, offset: u32) -> bool
        ensures { result ≡ inside self.now block offset }
    {
        match self.named.get(&block) {
            Some(cells) => (offset as usize) < cells.len(),
            None => false,
        }
    }

    // Whether two values of a pointer's type are equal, where the rules say.
    fn equal(&self, left: Value, right: Value) -> Option<bool>
        ensures { result ≡ equal self.now left right }
    {
        match (left, right) {
            (Value::Int(a), Value::Int(b)) => { if a == 0 && b == 0 { Some(true) } else { None } }
            (Value::Int(a), Value::Ptr { block, offset })
            | (Value::Ptr { block, offset }, Value::Int(a)) => {
                if a == 0 && self.within(block, offset) {
                    Some(false)
                } else {
                    None
                }
            }
            (
                Value::Ptr { block, offset },
                Value::Ptr {
                    block: other,
                    offset: place,
                },
            ) => {
                if same_name(block, other) {
                    if self.within(block, offset) && self.within(block, place) {
                        Some(offset == place)
                    } else {
                        None
                    }
                } else if self.inside(block, offset) && self.inside(other, place) {
                    Some(false)
                } else {
                    None
                }
            }
        }
    }

    // The offsets of two pointers to one live block, both in 0 to its size.
    fn in_order(&self, left: Value, right: Value) -> Option<(u32, u32)>
        ensures { result ≡ in_order self.now left right }
    {
        match (left, right) {
            (
                Value::Ptr { block, offset },
                Value::Ptr {
                    block: other,
                    offset: place,
                },
            ) => {
                let bounded = self.within(block, offset) && self.within(block, place);
                if same_name(block, other) && bounded {
                    Some((offset, place))
                } else {
                    None
                }
            }
            _ => None,
        }
    }

    // How many elements lie between two pointers to one live block.
    fn elements_between(&self, left: Value, right: Value, size: Element) -> Option<Value>
        ensures { result ≡ elements_between self.now left right size }
    {
        match (left, right) {
            (
                Value::Ptr { block, offset },
                Value::Ptr {
                    block: other,
                    offset: place,
                },
            ) => {
                if same_name(block, other) && self.is_live(block) {
                    Some(Value::Int(signed_quotient(minus(offset, place), size)))
                } else {
                    None
                }
            }
            _ => None,
        }
    }

    /// The value of an operator, or None where the source's rules give none. An operator with one operand looks at
    /// `left` alone. It takes no memory.
    pub fn apply(&self, op: Op, left: &Value, right: &Value) -> Option<Value>
        ensures { result ≡ applied self.now op left.now right.now }
    {
        match op {
            Op::Keep => Some(*left),
            Op::LowSigned | Op::LowUnsigned | Op::Neg | Op::Flip | Op::Not => of_word(op, *left),
            Op::PtrAdd(size) => moved_forward(*left, *right, size),
            Op::PtrSub(size) => moved_back(*left, *right, size),
            Op::PtrDiff(size) => self.elements_between(*left, *right, size),
            Op::PtrNot => int_of(self.equal(*left, Value::Int(0))),
            Op::PtrEq => int_of(self.equal(*left, *right)),
            Op::PtrNe => match self.equal(*left, *right) {
                Some(same) => int_of(Some(!same)),
                None => None,
            },
            Op::PtrLt => match self.in_order(*left, *right) {
                Some((first, second)) => int_of(Some(first < second)),
                None => None,
            },
            Op::PtrGt => match self.in_order(*left, *right) {
                Some((first, second)) => int_of(Some(first > second)),
                None => None,
            },
            Op::PtrLe => match self.in_order(*left, *right) {
                Some((first, second)) => int_of(Some(first <= second)),
                None => None,
            },
            Op::PtrGe => match self.in_order(*left, *right) {
                Some((first, second)) => int_of(Some(first >= second)),
                None => None,
            },
            _ => of_words(op, *left, *right),
        }
    }
}
