// What bytes stand for.
ghost use Rattle.std.specs.Prelude.{◌≡◌};
ghost use Rattle.block_mem.specs.Access.{signed_of, unsigned_of, word_of, is_zero, is_part, pointer_of};
ghost use Rattle.block_mem.specs.Names.{same_name};

use crate::operator::signed_byte;
use crate::value::{BlockName, Byte, Value};

// Whether two names are one.
pub(crate) fn same_name(a: BlockName, b: BlockName) -> bool
    ensures { result ≡ same_name a b }
{
    match (a, b) {
        (BlockName::Global { unit: u, index: i }, BlockName::Global { unit: v, index: j }) => u == v
            && i == j,
        (
            BlockName::Local {
                activation: u,
                index: i,
            },
            BlockName::Local {
                activation: v,
                index: j,
            },
        ) => u == v && i == j,
        _ => false,
    }
}

pub(crate) fn signed_of(byte: Byte) -> Option<Value>
    ensures { result ≡ signed_of byte }
{
    match byte {
        Byte::Plain(x) => Some(Value::Int(signed_byte(x))),
        _ => None,
    }
}

pub(crate) fn unsigned_of(byte: Byte) -> Option<Value>
    ensures { result ≡ unsigned_of byte }
{
    match byte {
        Byte::Plain(x) => Some(Value::Int(u32::from(x))),
        _ => None,
    }
}

pub(crate) fn word_of(p: Byte, q: Byte, r: Byte, s: Byte) -> Option<Value>
    ensures { result ≡ word_of p q r s }
{
    match (p, q, r, s) {
        (Byte::Plain(a), Byte::Plain(b), Byte::Plain(c), Byte::Plain(d)) => {
            Some(Value::Int(u32::from_le_bytes([a, b, c, d])))
        }
        _ => None,
    }
}

fn is_zero(byte: Byte) -> bool
    ensures { result ≡ is_zero byte }
{
    match byte {
        Byte::Plain(x) => x == 0,
        _ => false,
    }
}

fn is_part(name: BlockName, at: u32, number: u8, byte: Byte) -> bool
    ensures { result ≡ is_part name at number byte }
{
    match byte {
        Byte::Part {
            block,
            offset,
            which,
        } => { same_name(name, block) && at == offset && number == which }
        _ => false,
    }
}

pub(crate) fn pointer_of(p: Byte, q: Byte, r: Byte, s: Byte) -> Option<Value>
    ensures { result ≡ pointer_of p q r s }
{
    match p {
        Byte::Unset => None,
        Byte::Plain(x) => {
            if x == 0 && is_zero(q) && is_zero(r) && is_zero(s) {
                Some(Value::Int(0))
            } else {
                None
            }
        }
        Byte::Part {
            block,
            offset,
            which,
        } => {
            if which == 0
                && is_part(block, offset, 1, q)
                && is_part(block, offset, 2, r)
                && is_part(block, offset, 3, s)
            {
                Some(Value::Ptr { block, offset })
            } else {
                None
            }
        }
    }
}
