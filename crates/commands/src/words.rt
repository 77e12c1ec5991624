// The words of an answer's line.
ghost use Rattle.std.specs.Prelude.{◌≡◌, ◌≢◌, [], ◌++◌, codes, decimal, OnOk, OnErr, IfOk};
ghost use Rattle.commands.specs.Answers.{status_of};
ghost use Rattle.commands.specs.declared.answer.Status.{Status};
ghost use Rattle.commands.specs.Lines.{shown, address, cause_words, kind_words, rule_words, limit_words, words_of, ended, line_of};

use crate::answer::{Answer, SyntaxKind, TypingKind, UnitLimit};
use cc_base::{Text, hex_text, word_text};
use i386_machine::Cause;
use std::alloc::{AllocError, Global};

// Appends a symbol's name; what is no visible character of ASCII shows as a question mark.
fn put_shown(line: &mut Text, name: &[u8]) -> Result<(), AllocError>
    ensures { OnOk result (line.new ≡ line.old ++ shown name.now) }
{
    for byte in name {
        let visible = 0x21 <= *byte && *byte <= 0x7e;
        line.push(if visible { *byte } else { b'?' })?;
    }
    Ok(())
}

// Appends a number.
fn put_number(line: &mut Text, number: u64) -> Result<(), AllocError>
    ensures { OnOk result (line.new ≡ line.old ++ decimal number) }
{
    line.extend(word_text(number).as_slice())
}

// Appends an address.
fn put_address(line: &mut Text, at: u64) -> Result<(), AllocError>
    ensures { OnOk result (line.new ≡ line.old ++ address at) }
{
    line.extend(hex_text(at, 8).as_slice())
}

// Appends why there is no step.
fn put_cause(line: &mut Text, cause: Cause) -> Result<(), AllocError>
    ensures { OnOk result (line.new ≡ line.old ++ cause_words cause) }
{
    match cause {
        Cause::Fetch => line.extend(b"fetch"),
        Cause::Decode => line.extend(b"decode"),
        Cause::Access { address } => {
            line.extend(b"access ")?;
            put_address(line, u64::from(address))
        }
        Cause::Divide => line.extend(b"divide"),
        Cause::Flags => line.extend(b"flags"),
        Cause::System => line.extend(b"system"),
    }
}

// Appends what is wrong with a text.
fn put_kind(line: &mut Text, kind: SyntaxKind) -> Result<(), AllocError>
    ensures { OnOk result (line.new ≡ line.old ++ kind_words kind) }
{
    match kind {
        SyntaxKind::Char => line.extend(b"char"),
        SyntaxKind::Literal => line.extend(b"literal"),
        SyntaxKind::Token => line.extend(b"token"),
    }
}

// Appends the word for the rule of the types that a unit breaks.
fn put_rule(line: &mut Text, kind: TypingKind) -> Result<(), AllocError>
    ensures { OnOk result (line.new ≡ line.old ++ rule_words kind) }
{
    match kind {
        TypingKind::Unknown => line.extend(b"unknown"),
        TypingKind::Twice => line.extend(b"twice"),
        TypingKind::Kind => line.extend(b"kind"),
        TypingKind::Count => line.extend(b"count"),
        TypingKind::NotPlace => line.extend(b"notplace"),
        TypingKind::Reserved => line.extend(b"reserved"),
        TypingKind::MainShape => line.extend(b"main"),
        TypingKind::Initialiser => line.extend(b"initialiser"),
    }
}

// Appends the word for the limit that a unit passes.
fn put_limit(line: &mut Text, limit: UnitLimit) -> Result<(), AllocError>
    ensures { OnOk result (line.new ≡ line.old ++ limit_words limit) }
{
    match limit {
        UnitLimit::Size => line.extend(b"size"),
        UnitLimit::Params => line.extend(b"params"),
        UnitLimit::Nodes => line.extend(b"nodes"),
    }
}

// Appends a name and the file of the object that it is told of.
fn put_name(line: &mut Text, name: &[u8], file: &[u8]) -> Result<(), AllocError>
    ensures { OnOk result (line.new ≡ line.old ++ (shown name.now ++ codes " " ++ file.now)) }
{
    put_shown(line, name)?;
    line.extend(b" ")?;
    line.extend(file)
}

// Appends a name between two words.
fn put_named(line: &mut Text, front: &[u8], name: &[u8], behind: &[u8]) -> Result<(), AllocError>
    ensures { OnOk result (line.new ≡ line.old ++ (front.now ++ (name.now ++ behind.now))) }
{
    line.extend(front)?;
    line.extend(name)?;
    line.extend(behind)
}

// Appends a word and a number.
fn put_count(line: &mut Text, front: &[u8], number: u64) -> Result<(), AllocError>
    ensures { OnOk result (line.new ≡ line.old ++ (front.now ++ decimal number)) }
{
    line.extend(front)?;
    put_number(line, number)
}

// The words of an answer. There are none for a write fault, and so no memory is wanted for them.
fn put_words(line: &mut Text, answer: &Answer) -> Result<(), AllocError>
    ensures words { OnOk result (line.new ≡ line.old ++ words_of answer.now) }
    ensures none { OnErr result (status_of answer.now ≢ Status.WriteFault) }
{
    match answer {
        Answer::Words => line.extend(b"words"),
        Answer::Memory => Ok(()),
        Answer::Missing(name) => put_named(line, b"missing ", name.as_slice(), b""),
        Answer::ReadFault => line.extend(b"read"),
        Answer::WriteFault => Ok(()),
        Answer::LimitFile(name) => put_named(line, b"", name.as_slice(), b": limit file"),
        Answer::LimitText(name) => put_named(line, b"", name.as_slice(), b": limit text"),
        Answer::LimitDeep { file, at } => {
            put_named(line, b"", file.as_slice(), b": limit deep ")?;
            put_number(line, u64::from(*at))
        }
        Answer::Syntax { file, kind, at } => {
            put_named(line, b"", file.as_slice(), b": syntax ")?;
            put_kind(line, *kind)?;
            put_count(line, b" ", u64::from(*at))
        }
        Answer::Typing { file, kind, at } => {
            put_named(line, b"", file.as_slice(), b": typing ")?;
            put_rule(line, *kind)?;
            put_count(line, b" ", u64::from(*at))
        }
        Answer::LimitUnit { file, limit, at } => {
            put_named(line, b"", file.as_slice(), b": limit ")?;
            put_limit(line, *limit)?;
            put_count(line, b" ", u64::from(*at))
        }
        Answer::LimitForm(name) => put_named(line, b"", name.as_slice(), b": limit form"),
        Answer::ObjectForm(name) => put_named(line, b"", name.as_slice(), b": object form"),
        Answer::Doubled { name, file } => {
            line.extend(b"doubled ")?;
            put_name(line, name.as_slice(), file.as_slice())
        }
        Answer::Unresolved { name, file } => {
            line.extend(b"unresolved ")?;
            put_name(line, name.as_slice(), file.as_slice())
        }
        Answer::Sized {
            name,
            file,
            stated,
            defined,
        } => {
            line.extend(b"sized ")?;
            put_name(line, name.as_slice(), file.as_slice())?;
            put_count(line, b" ", u64::from(*stated))?;
            put_count(line, b" ", u64::from(*defined))
        }
        Answer::Range(end) => {
            line.extend(b"range ")?;
            put_address(line, *end)
        }
        Answer::ImageForm(name) => put_named(line, b"", name.as_slice(), b": image form"),
        Answer::ImageSegment { file, index } => {
            put_named(line, b"", file.as_slice(), b": image segment ")?;
            put_number(line, u64::from(*index))
        }
        Answer::ImageEntry(name) => put_named(line, b"", name.as_slice(), b": image entry"),
        Answer::ObjectStored(length) => put_count(line, b"object ", *length),
        Answer::ImageStored(length) => put_count(line, b"image ", *length),
        Answer::Shown => Ok(()),
        Answer::Ended(code) => put_count(line, b"exit ", u64::from(*code)),
        Answer::Spent => line.extend(b"spent"),
        Answer::Stuck { eip, cause } => {
            line.extend(b"stuck ")?;
            put_address(line, u64::from(*eip))?;
            line.extend(b" ")?;
            put_cause(line, *cause)
        }
        Answer::Wrong(turn) => put_count(line, b"wrong ", u64::from(*turn)),
        Answer::Deep(turn) => put_count(line, b"deep ", u64::from(*turn)),
    }
}

// Ends words with a newline, where there are any.
fn end_line(line: &mut Text) -> Result<(), AllocError>
    ensures ended { OnOk result (line.new ≡ ended line.old) }
    ensures none { OnErr result (line.old ≢ []) }
{
    if line.is_empty() {
        return Ok(());
    }
    line.push(b'\n')
}

/// The line that an answer is reported by; nothing after a write fault and want of memory. The only error is want of
/// memory, and it never comes after a write fault.
pub fn line(alloc: Global, answer: &Answer) -> Result<Text, AllocError>
    ensures line { IfOk result (λ line. line ≡ line_of answer.now) }
    ensures none { OnErr result (status_of answer.now ≢ Status.WriteFault) }
{
    let mut line = Text::new(alloc);
    put_words(&mut line, answer)?;
    end_line(&mut line)?;
    Ok(line)
}
