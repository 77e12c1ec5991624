// Numbers as text, without memory.
ghost use Rattle.std.specs.Prelude.{◌≡◌, ◌<◌, ◌≤◌, false, decimal, length, take, drop};
ghost use Rattle.std.specs.Fmt.{digits, digit_glyph};
ghost use Rattle.cc_base.specs.NumberText.{hex_of};

use itoa::Buffer;
use std::marker::Model;

/// How many bytes a number's text has at most: those of the greatest number of 64 bits.
const ROOM: usize = 20;

/// The text of a number, of at most 20 bytes.
#[derive(Drop)]
pub struct NumberText {
    held: [u8; ROOM],
    len: usize,
}

impl Model for NumberText {
    ghost use Rattle.std.specs.Prelude.{List, ℕ, take, ◌≤◌, length};

    ghost Value = { List ℕ };

    ghost view = { λ t. take t.len t.held };

    ghost invariant = { λ t. t.len ≤ 20 };
}

impl NumberText {
    /// The bytes of the text.
    pub fn as_slice(&self) -> &[u8]
        ensures { result.now ≡ self.now }
    {
        &self.held[..self.len]
    }

    /// How many bytes the text has, at most 20.
    pub fn len(&self) -> usize
        ensures { result ≡ length self.now }
    {
        self.len
    }
}

// The text of these bytes.
fn held_text(bytes: &[u8]) -> NumberText
    requires { length bytes.now ≤ 20 }
    ensures { result ≡ bytes.now }
{
    let mut held = [0u8; ROOM];
    let len = bytes.len();
    held[..len].copy_from_slice(bytes);
    NumberText { held, len }
}

/// The decimal text of a number, without sign or leading zero. It takes no memory.
pub fn word_text(value: u64) -> NumberText
    ensures { result ≡ decimal value }
{
    let mut buffer = Buffer::new();
    held_text(buffer.format(value).as_bytes())
}

/// The hexadecimal text of a number, in lower case and with zeros in front up to this many digits, which are at
/// most 16. It takes no memory.
pub fn hex_text(value: u64, digits: u8) -> NumberText
    requires { digits ≤ 16 }
    ensures { result ≡ hex_of value digits }
{
    let mut buffer = [b'0'; ROOM];
    let start = put_hex(value, &mut buffer);
    let padded = start.min(ROOM - digits as usize);
    held_text(&buffer[padded..])
}

// Writes the hexadecimal digits at the end of the buffer, and says where they start.
fn put_hex(value: u64, buffer: &mut [u8; ROOM]) -> usize
    ensures within { result ≤ 20 }
    ensures written { drop result buffer.new ≡ digits 16 false value }
    ensures front { take result buffer.new ≡ take result buffer.old }
{
    let mut at = ROOM;
    let mut rest = value;
    while at > 0 {
        at -= 1;
        buffer[at] = hex_digit((rest % 16) as u8);
        rest /= 16;
        if rest == 0 {
            break;
        }
    }
    at
}

// The hexadecimal digit of a number below 16, in lower case.
fn hex_digit(value: u8) -> u8
    requires { value < 16 }
    ensures { result ≡ digit_glyph false value }
{
    if value < 10 {
        b'0' + value
    } else {
        b'a' + (value - 10)
    }
}
