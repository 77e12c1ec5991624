//! Operands as ModRM, SIB and displacement name them: reading.

ghost use Rattle.std.specs.Prelude.{◌≡◌, ◌<◌, ◌≤◌, length, IfSome};
ghost use Rattle.i386_code.specs.Fields.{sign_extended};
ghost use Rattle.i386_code.specs.Reading.{word_of, displacement_of, base_at, width_at, index_at, address_of, operand_of};

use crate::instr::{Address, Reg, Rm, Scaled};
use crate::rows::register;

/// How wide a displacement is: no bytes, one whose sign is extended, or four.
#[derive(Clone, Copy)]
pub enum Width {
    Absent,
    Byte,
    Word,
}

/// The word of the first four bytes. None: there are fewer.
pub fn word_at(bytes: &[u8]) -> Option<u32>
    ensures { result ≡ word_of bytes.now }
{
    match bytes {
        [a, b, c, d, ..] => Some(u32::from_le_bytes([*a, *b, *c, *d])),
        _ => None,
    }
}

/// A byte as a word, its sign extended.
pub fn sign_extended(byte: u8) -> u32
    ensures { result ≡ sign_extended byte }
{
    if byte < 0x80 {
        u32::from(byte)
    } else {
        u32::from(byte) + 0xffff_ff00
    }
}

/// The displacement of this width at the front, and how many bytes it takes. None: there are fewer.
fn displacement_at(width: Width, bytes: &[u8]) -> Option<(u32, u8)>
    ensures { result ≡ displacement_of width bytes.now }
{
    match (width, bytes) {
        (Width::Absent, _) => Some((0, 0)),
        (Width::Byte, [byte, ..]) => Some((sign_extended(*byte), 1)),
        (Width::Byte, []) => None,
        (Width::Word, _) => Some((word_at(bytes)?, 4)),
    }
}

/// The base that a number stands for under a mod.
fn base_of(mode: u8, number: u8) -> Option<Reg>
    requires { number < 8 }
    ensures { result ≡ base_at mode number }
{
    if mode == 0 && number == 5 {
        None
    } else {
        Some(register(number))
    }
}

/// How wide the displacement is beside that base.
fn width_of(mode: u8, number: u8) -> Width
    ensures { result ≡ width_at mode number }
{
    match (mode, number) {
        (0, 5) => Width::Word,
        (0, _) => Width::Absent,
        (1, _) => Width::Byte,
        _ => Width::Word,
    }
}

/// The index that a SIB byte's scale and index stand for.
fn index_of(scale: u8, number: u8) -> Option<Scaled>
    requires { number < 8 }
    ensures { result ≡ index_at scale number }
{
    if number == 4 {
        None
    } else {
        Some(Scaled {
            register: register(number),
            shift: scale,
        })
    }
}

fn address_at(index: Option<Scaled>, mode: u8, number: u8, bytes: &[u8]) -> Option<(Rm, u8)>
    requires { number < 8 }
    ensures found { result ≡ address_of index mode number bytes.now }
    ensures count { IfSome result (λ found. found.1 ≤ 4) }
{
    let (disp, count) = displacement_at(width_of(mode, number), bytes)?;
    let address = Address {
        base: base_of(mode, number),
        index,
        disp,
    };
    Some((Rm::Mem(address), count))
}

/// The operand of a ModRM byte, with the bytes after it, and how many of these it takes. None: there are fewer.
pub fn operand_at(modrm: u8, bytes: &[u8]) -> Option<(Rm, u8)>
    ensures found { result ≡ operand_of modrm bytes.now }
    ensures count { IfSome result (λ found. found.1 ≤ 5) }
    ensures room { IfSome result (λ found. found.1 ≤ length bytes.now) }
{
    let (mode, number) = (modrm / 64, modrm % 8);
    match (mode, number, bytes) {
        (3, _, _) => Some((Rm::Reg(register(number)), 0)),
        (_, 4, [sib, rest @ ..]) => {
            let index = index_of(*sib / 64, *sib / 8 % 8);
            let (operand, count) = address_at(index, mode, *sib % 8, rest)?;
            Some((operand, count + 1))
        }
        (_, 4, []) => None,
        _ => address_at(None, mode, number, bytes),
    }
}
