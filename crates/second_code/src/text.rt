// The text of a unit's object, where each call's word is open.
ghost use Rattle.std.specs.Prelude.{◌≡◌, ◌++◌, ◌^◌, ◌<◌, OnOk, IfOk};
ghost use Rattle.cc_base.specs.Words.{word_bytes};
ghost use Rattle.second_code.specs.Parts.{open_statement, open_body, body_of, body_size, text_of};
ghost use Rattle.second_code.specs.Code.{statement_size};

use cc_base::Bytes;
use second_form::{Item, SmallStmt};
use std::alloc::{AllocError, Global};

// The number of the section of text.
pub(crate) const TEXT: u32 = 1;

// `call`, with -4 in its word, the distance from the word to its end.
const OPEN_CALL: [u8; 5] = [0xe8, 0xfc, 0xff, 0xff, 0xff];

// Appends the four bytes of a word, the lowest first.
fn push_word(text: &mut Bytes, word: u32) -> Result<(), AllocError>
    ensures { OnOk result (text.new ≡ text.old ++ word_bytes word) }
{
    text.extend(&word.to_le_bytes())
}

// Appends the code of a statement.
fn push_statement(text: &mut Bytes, statement: &SmallStmt) -> Result<(), AllocError>
    ensures { OnOk result (text.new ≡ text.old ++ open_statement statement.now) }
{
    match statement {
        SmallStmt::Put(number) => {
            text.push(0xb8)?;
            push_word(text, *number)?;
            text.push(0x50)?;
            text.extend(&OPEN_CALL)?;
            text.push(0x58)
        }
        SmallStmt::Call(_) => text.extend(&OPEN_CALL),
        SmallStmt::Return(number) => {
            text.push(0xb8)?;
            push_word(text, *number)?;
            text.push(0xc3)
        }
    }
}

// Appends the code of these statements.
fn push_body(text: &mut Bytes, body: &[SmallStmt]) -> Result<(), AllocError>
    ensures { OnOk result (text.new ≡ text.old ++ open_body body.now) }
{
    for statement in body {
        push_statement(text, statement)?;
    }
    Ok(())
}

// The statements of a definition. A declaration has none.
pub(crate) fn statements(item: &Item) -> &[SmallStmt]
    ensures { result.now ≡ body_of item.now.body }
{
    match &item.body {
        Some(body) => body.as_slice(),
        None => &[],
    }
}

// The text of a unit: the code of its functions, in the order of their definitions.
pub(crate) fn text(alloc: Global, items: &[Item]) -> Result<Bytes, AllocError>
    ensures { IfOk result (λ text. text ≡ text_of items.now) }
{
    let mut text = Bytes::new(alloc);
    for item in items {
        push_body(&mut text, statements(item))?;
    }
    Ok(text)
}

// How many bytes the code of a statement has.
pub(crate) fn statement_size(statement: &SmallStmt) -> u32
    ensures size { result ≡ statement_size statement.now }
{
    match statement {
        SmallStmt::Put(_) => 12,
        SmallStmt::Call(_) => 5,
        SmallStmt::Return(_) => 6,
    }
}

// How many bytes the code of these statements has.
pub(crate) fn body_size(body: &[SmallStmt]) -> u32
    requires { body_size body.now < 2 ^ 32 }
    ensures { result ≡ body_size body.now }
{
    let mut size = 0;
    for statement in body {
        size += statement_size(statement);
    }
    size
}
