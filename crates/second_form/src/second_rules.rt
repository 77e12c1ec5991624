// What each item is to be, whatever the others are.
ghost use Rattle.std.specs.Prelude.{◌≡◌, ◌↔◌, IsTrue, All, Contains};
ghost use Rattle.second_form.specs.SecondForm.{reserved_words, IsDigit, IsWordByte, IsIdentifier, IsName, Fits, CallsName, EndsReturning, IsBody, IsBodyIfAny, IsItem};

use crate::second_items::{Item, SmallStmt, SmallStmts};

/// The greatest `int`.
const INT_MAX: u32 = 2147483647;

// The names of the runtime but for `main`.
const RESERVED: [&[u8]; 3] = [b"getbyte", b"putbyte", b"_start"];

fn is_reserved(word: &[u8]) -> bool
    ensures { IsTrue result ↔ Contains reserved_words word.now }
{
    RESERVED.contains(&word)
}

// Whether it is a letter, a digit or an underscore.
fn is_word_byte(byte: u8) -> bool
    ensures { IsTrue result ↔ IsWordByte byte }
{
    matches!(byte, b'a'..=b'z' | b'A'..=b'Z' | b'_' | b'0'..=b'9')
}

fn are_word_bytes(name: &[u8]) -> bool
    ensures { IsTrue result ↔ All IsWordByte name.now }
{
    'bytes: for byte in name {
        if !is_word_byte(*byte) {
            return false;
        }
    }
    true
}

fn is_digit(byte: u8) -> bool
    ensures { IsTrue result ↔ IsDigit byte }
{
    matches!(byte, b'0'..=b'9')
}

fn is_identifier(name: &[u8]) -> bool
    ensures { IsTrue result ↔ IsIdentifier name.now }
{
    match name {
        [] => false,
        [first, ..] => !is_digit(*first) && are_word_bytes(name),
    }
}

fn is_name(name: &[u8]) -> bool
    ensures { IsTrue result ↔ IsName name.now }
{
    is_identifier(name) && !is_reserved(name)
}

fn fits(statement: &SmallStmt) -> bool
    ensures { IsTrue result ↔ Fits statement.now }
{
    match statement {
        SmallStmt::Put(value) | SmallStmt::Return(value) => *value <= INT_MAX,
        SmallStmt::Call(_) => true,
    }
}

fn calls_name(statement: &SmallStmt) -> bool
    ensures { IsTrue result ↔ CallsName statement.now }
{
    match statement {
        SmallStmt::Put(_) | SmallStmt::Return(_) => true,
        SmallStmt::Call(name) => is_name(name.as_slice()),
    }
}

fn all_fit(statements: &[SmallStmt]) -> bool
    ensures { IsTrue result ↔ All Fits statements.now }
{
    'statements: for statement in statements {
        if !fits(statement) {
            return false;
        }
    }
    true
}

fn all_call_names(statements: &[SmallStmt]) -> bool
    ensures { IsTrue result ↔ All CallsName statements.now }
{
    'statements: for statement in statements {
        if !calls_name(statement) {
            return false;
        }
    }
    true
}

// Whether the last statement is a return, and no other is.
fn ends_returning(statements: &[SmallStmt]) -> bool
    ensures { IsTrue result ↔ EndsReturning statements.now }
{
    'statements: for (place, statement) in statements.iter().enumerate() {
        if let SmallStmt::Return(_) = statement {
            return place + 1 == statements.len();
        }
    }
    false
}

fn is_body(statements: &[SmallStmt]) -> bool
    ensures { IsTrue result ↔ IsBody statements.now }
{
    ends_returning(statements) && all_fit(statements) && all_call_names(statements)
}

fn is_body_if_any(body: &Option<SmallStmts>) -> bool
    ensures { IsTrue result ↔ IsBodyIfAny body.now }
{
    match body {
        Some(statements) => is_body(statements.as_slice()),
        None => true,
    }
}

fn is_item(item: &Item) -> bool
    ensures { IsTrue result ↔ IsItem item.now }
{
    is_name(item.name.as_slice()) && is_body_if_any(&item.body)
}

/// Whether each item is as it is to be.
pub(crate) fn are_items(items: &[Item]) -> bool
    ensures { IsTrue result ↔ All IsItem items.now }
{
    'items: for item in items {
        if !is_item(item) {
            return false;
        }
    }
    true
}
