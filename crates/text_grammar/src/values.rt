// The values of literals.
ghost use Rattle.std.specs.Prelude.{◌≡◌, ◌<◌, ◌^◌, length, take, drop, IsSome, IfOk};
ghost use Rattle.std.specs.List.{take_while};
ghost use Rattle.std.specs.Str.Parse.{digits_value};
ghost use Rattle.text_grammar.specs.Lexical.{is_octal_digit, is_hex_digit, IsNumber, number_value, is_unsigned_number, escape, escape_value, element, element_value, string_value};

use crate::spelling;
use sqlite_items::Items;
use std::alloc::{AllocError, Global};

const INT_MAX: u32 = 2147483647;

/// The value of a number.
pub fn number_value(run: &[u8]) -> u32
    requires { IsNumber run.now }
    ensures { result ≡ number_value run.now }
{
    match spelling::number(run) {
        Some(value) => value,
        None => unreachable!(),
    }
}

/// Whether a number is unsigned: it has a suffix, or is past the greatest `int`.
#[tactic(auto, unfolding(crate::specs::Lexical::is_unsigned_number))]
pub fn is_unsigned_number(run: &[u8]) -> bool
    requires { IsNumber run.now }
    ensures { result ≡ is_unsigned_number run.now }
{
    spelling::is_unsigned(run) || number_value(run) > INT_MAX
}

// The value of an escape with octal digits, of which the text begins with three at most.
fn octal_value(text: &[u8]) -> u8
    requires { digits_value 8 (take_while is_octal_digit (take 3 text.now)) < 256 }
    ensures { result ≡ digits_value 8 (take_while is_octal_digit (take 3 text.now)) }
{
    let most = &text[..text.len().min(3)];
    match spelling::digits_value(8, &most[..spelling::octal_count(most)]) {
        Some(value) => value as u8,
        None => unreachable!(),
    }
}

// The value of an escape with hexadecimal digits, with which the text begins.
fn hex_value(text: &[u8]) -> u8
    requires { digits_value 16 (take_while is_hex_digit text.now) < 256 }
    ensures { result ≡ digits_value 16 (take_while is_hex_digit text.now) }
{
    match spelling::digits_value(16, &text[..spelling::hex_count(text)]) {
        Some(value) => value as u8,
        None => unreachable!(),
    }
}

// The byte of an escape whose text after the backslash this is.
#[tactic(auto, unfolding(crate::specs::Lexical::escape_value))]
fn escape_value(text: &[u8]) -> u8
    requires { IsSome (escape text.now) }
    ensures { result ≡ escape_value text.now }
{
    let first = spelling::byte_at(text, 0);
    if spelling::is_octal_digit(first) {
        return octal_value(text);
    }
    if first == b'x' {
        return hex_value(&text[1..]);
    }
    match first {
        b'n' => b'\n',
        b't' => b'\t',
        b'r' => b'\r',
        other => other,
    }
}

// The byte of the element that the text begins with.
#[tactic(auto, unfolding(crate::specs::Lexical::element_value))]
fn element_value(quote: u8, text: &[u8]) -> u8
    requires { IsSome (element quote text.now) }
    ensures { result ≡ element_value text.now }
{
    let first = spelling::byte_at(text, 0);
    if first == b'\\' {
        escape_value(&text[1..])
    } else {
        first
    }
}

/// The byte of a character literal.
pub fn character_value(literal: &[u8]) -> u8
    requires { IsSome (element 39 (drop 1 literal.now)) }
    ensures { result ≡ element_value (drop 1 literal.now) }
{
    if literal.is_empty() {
        return 0;
    }
    element_value(b'\'', &literal[1..])
}

/// The bytes of a string literal.
pub fn string_value(alloc: Global, literal: &[u8]) -> Result<Items<u8>, AllocError>
    ensures { IfOk result (λ bytes. bytes ≡ string_value literal.now) }
{
    let mut found = Items::new(alloc);
    let mut at = 1;
    'elements: while at < literal.len() {
        let rest = &literal[at..];
        if spelling::byte_at(rest, 0) == b'"' {
            return Ok(found);
        }
        let Some(length) = spelling::element(b'"', rest) else {
            return Ok(found);
        };
        found.push(element_value(b'"', rest))?;
        at += length;
    }
    Ok(found)
}
