// What a text begins with: a token, a blank or a comment.
ghost use Rattle.std.specs.Prelude.{◌≡◌, ◌≤◌, length};
ghost use Rattle.text_grammar.specs.Lexical.{is_letter, is_word_byte, is_not_newline, shape_of, HasRoom, IsFrontOf, IsFront, IsWithin};
ghost use Rattle.text_grammar.specs.declared.front.Shape.TheVariants as shape;

use crate::spelling;
use crate::token_list::TokenKind;

/// What the first two bytes of a text tell of its front.
pub enum Shape {
    Space,
    LineComment,
    BlockComment,
    Word,
    Number,
    Character,
    String,
    Other,
}

/// What a text begins with, by longest match, and how many bytes that has.
pub enum Front {
    /// A blank or a comment.
    Blank(usize),
    Token(TokenKind, usize),
    /// A literal that is not as it must be.
    BadLiteral,
    /// No token at all, or a comment without end.
    NoToken,
}

#[tactic(auto, unfolding(crate::specs::Lexical::shape_of))]
fn shape_of(text: &[u8]) -> Shape
    ensures value { result ≡ shape_of text.now }
    ensures room { HasRoom result text.now }
{
    let first = spelling::byte_at(text, 0);
    let second = spelling::byte_at(text, 1);
    if spelling::is_space(first) {
        Shape::Space
    } else if spelling::is_letter(first) {
        Shape::Word
    } else if first.is_ascii_digit() {
        Shape::Number
    } else if first == b'\'' {
        Shape::Character
    } else if first == b'"' {
        Shape::String
    } else if first == b'/' && second == b'/' {
        Shape::LineComment
    } else if first == b'/' && second == b'*' {
        Shape::BlockComment
    } else {
        Shape::Other
    }
}

fn block_comment(text: &[u8]) -> Front
    requires { HasRoom shape.BlockComment text.now }
    ensures is { IsFrontOf shape.BlockComment text.now result }
    ensures within { IsWithin (length text.now) result }
{
    match spelling::comment_end(&text[2..]) {
        Some(length) => Front::Blank(length + 2),
        None => Front::NoToken,
    }
}

fn word(text: &[u8]) -> Front
    requires { HasRoom shape.Word text.now }
    ensures is { IsFrontOf shape.Word text.now result }
    ensures within { IsWithin (length text.now) result }
{
    let length = spelling::word_length(text);
    if spelling::is_keyword(&text[..length]) {
        Front::Token(TokenKind::Keyword, length)
    } else {
        Front::Token(TokenKind::Id, length)
    }
}

fn number(text: &[u8]) -> Front
    requires { HasRoom shape.Number text.now }
    ensures is { IsFrontOf shape.Number text.now result }
    ensures within { IsWithin (length text.now) result }
{
    let length = spelling::word_length(text);
    match spelling::number(&text[..length]) {
        Some(_) => Front::Token(TokenKind::Num, length),
        None => Front::BadLiteral,
    }
}

fn character(text: &[u8]) -> Front
    requires { HasRoom shape.Character text.now }
    ensures is { IsFrontOf shape.Character text.now result }
    ensures within { IsWithin (length text.now) result }
{
    match spelling::character(&text[1..]) {
        Some(length) => Front::Token(TokenKind::Char, length),
        None => Front::BadLiteral,
    }
}

fn string(text: &[u8]) -> Front
    requires { HasRoom shape.String text.now }
    ensures is { IsFrontOf shape.String text.now result }
    ensures within { IsWithin (length text.now) result }
{
    match spelling::elements(&text[1..]) {
        Some(length) => Front::Token(TokenKind::Str, length + 2),
        None => Front::BadLiteral,
    }
}

fn sign(text: &[u8]) -> Front
    ensures is { IsFrontOf shape.Other text.now result }
    ensures within { IsWithin (length text.now) result }
{
    match spelling::sign_length(text) {
        0 => Front::NoToken,
        length => Front::Token(TokenKind::Sign, length),
    }
}

/// What the text begins with. Only an empty text begins with nothing of these, and there it is `NoToken`.
pub fn front_of(text: &[u8]) -> Front
    ensures is { IsFront text.now result }
    ensures within { IsWithin (length text.now) result }
{
    match shape_of(text) {
        Shape::Space => Front::Blank(1),
        Shape::LineComment => Front::Blank(spelling::line_length(text)),
        Shape::BlockComment => block_comment(text),
        Shape::Word => word(text),
        Shape::Number => number(text),
        Shape::Character => character(text),
        Shape::String => string(text),
        Shape::Other => sign(text),
    }
}
