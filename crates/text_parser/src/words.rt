// The words of a text.
ghost use Rattle.std.specs.Prelude.{◌≡◌, slice_get, slice_index, IfOk};
ghost use Rattle.std.specs.Option.{option_and_then, unwrap_or};
ghost use Rattle.std.specs.List.{All, position};
ghost use Rattle.std.specs.Str.{bytes_eq};
ghost use Rattle.text_grammar.specs.declared.kind.Kind.TheVariants as k;
ghost use Rattle.text_grammar.specs.Lexical.{used_keywords};
ghost use Rattle.text_grammar.specs.Spelled.{IsSpelled};
ghost use Rattle.text_parser.specs.Symbols.{keyword_kinds, sign_spellings, sign_kinds, spelled, kind_of, symbols_of};
ghost use Rattle.text_parser.specs.Words.{word_symbols, AreWords};

use crate::word::Word;
use sqlite_items::at;
use std::alloc::{AllocError, Global};
use text_grammar::{Kind, Token, TokenKind};

// The first byte, or 0 where there is none.
fn first_of(bytes: &[u8]) -> u8
    ensures { result ≡ slice_index bytes.now 0 }
{
    bytes.first().copied().unwrap_or(0)
}

// The first place where these bytes stand among the spellings.
fn place_among(bytes: &[u8], spellings: &[&[u8]]) -> Option<usize>
    ensures { result ≡ position (λ other. bytes_eq bytes.now other.now) spellings.now }
{
    spellings.iter().position(|other| bytes == *other)
}

fn kind_at(kinds: &[Kind], place: usize) -> Kind
    ensures { result ≡ unwrap_or (slice_get kinds.now place) k.Unused }
{
    match at(kinds, place) {
        Some(kind) => *kind,
        None => Kind::Unused,
    }
}

// The kind at the place where these bytes stand among the spellings.
fn kind_among(bytes: &[u8], spellings: &[&[u8]], kinds: &[Kind]) -> Kind
    ensures { result ≡ unwrap_or (option_and_then (slice_get kinds.now) (position (λ other. bytes_eq bytes.now other.now) spellings.now)) k.Unused }
{
    match place_among(bytes, spellings) {
        Some(place) => kind_at(kinds, place),
        None => Kind::Unused,
    }
}

// What a keyword is to the grammar. It is compared with those alone that begin as it does.
fn keyword_kind(bytes: &[u8]) -> Kind
    ensures { result ≡ spelled used_keywords keyword_kinds bytes.now }
{
    match first_of(bytes) {
        b'b' => kind_among(bytes, &[b"break"], &[Kind::KwBreak]),
        b'c' => kind_among(
            bytes,
            &[b"char", b"const", b"continue"],
            &[Kind::KwChar, Kind::KwConst, Kind::KwContinue],
        ),
        b'd' => kind_among(bytes, &[b"do"], &[Kind::KwDo]),
        b'e' => kind_among(
            bytes,
            &[b"extern", b"else"],
            &[Kind::KwExtern, Kind::KwElse],
        ),
        b'f' => kind_among(bytes, &[b"for"], &[Kind::KwFor]),
        b'i' => kind_among(bytes, &[b"int", b"if"], &[Kind::KwInt, Kind::KwIf]),
        b'r' => kind_among(
            bytes,
            &[b"register", b"return"],
            &[Kind::KwRegister, Kind::KwReturn],
        ),
        b's' => kind_among(
            bytes,
            &[b"signed", b"struct", b"static", b"sizeof"],
            &[
                Kind::KwSigned,
                Kind::KwStruct,
                Kind::KwStatic,
                Kind::KwSizeof,
            ],
        ),
        b'u' => kind_among(bytes, &[b"unsigned"], &[Kind::KwUnsigned]),
        b'v' => kind_among(bytes, &[b"void"], &[Kind::KwVoid]),
        b'w' => kind_among(bytes, &[b"while"], &[Kind::KwWhile]),
        _ => Kind::Unused,
    }
}

// What a sign is to the grammar. It is compared with those alone that begin as it does.
fn sign_kind(bytes: &[u8]) -> Kind
    ensures { result ≡ spelled sign_spellings sign_kinds bytes.now }
{
    match first_of(bytes) {
        b'!' => kind_among(bytes, &[b"!=", b"!"], &[Kind::NotEq, Kind::Bang]),
        b'%' => kind_among(bytes, &[b"%"], &[Kind::Percent]),
        b'&' => kind_among(bytes, &[b"&", b"&&"], &[Kind::And, Kind::AndAnd]),
        b'(' => kind_among(bytes, &[b"("], &[Kind::LParen]),
        b')' => kind_among(bytes, &[b")"], &[Kind::RParen]),
        b'*' => kind_among(bytes, &[b"*"], &[Kind::Star]),
        b'+' => kind_among(bytes, &[b"+"], &[Kind::Plus]),
        b',' => kind_among(bytes, &[b","], &[Kind::Comma]),
        b'-' => kind_among(bytes, &[b"-", b"->"], &[Kind::Minus, Kind::Arrow]),
        b'.' => kind_among(bytes, &[b"."], &[Kind::Dot]),
        b'/' => kind_among(bytes, &[b"/"], &[Kind::Slash]),
        b';' => kind_among(bytes, &[b";"], &[Kind::Semi]),
        b'<' => kind_among(
            bytes,
            &[b"<", b"<=", b"<<"],
            &[Kind::Less, Kind::LessEq, Kind::ShiftLeft],
        ),
        b'=' => kind_among(bytes, &[b"=", b"=="], &[Kind::Assign, Kind::EqEq]),
        b'>' => kind_among(
            bytes,
            &[b">", b">=", b">>"],
            &[Kind::Greater, Kind::GreaterEq, Kind::ShiftRight],
        ),
        b'[' => kind_among(bytes, &[b"["], &[Kind::LBracket]),
        b']' => kind_among(bytes, &[b"]"], &[Kind::RBracket]),
        b'^' => kind_among(bytes, &[b"^"], &[Kind::Caret]),
        b'{' => kind_among(bytes, &[b"{"], &[Kind::LBrace]),
        b'|' => kind_among(bytes, &[b"||", b"|"], &[Kind::OrOr, Kind::Or]),
        b'}' => kind_among(bytes, &[b"}"], &[Kind::RBrace]),
        b'~' => kind_among(bytes, &[b"~"], &[Kind::Tilde]),
        _ => Kind::Unused,
    }
}

// What a token of these bytes is to the grammar.
fn kind_of(kind: TokenKind, bytes: &[u8]) -> Kind
    ensures { result ≡ kind_of kind bytes.now }
{
    match kind {
        TokenKind::Keyword => keyword_kind(bytes),
        TokenKind::Id => Kind::Id,
        TokenKind::Num => Kind::Num,
        TokenKind::Char => Kind::Char,
        TokenKind::Str => Kind::Str,
        TokenKind::Sign => sign_kind(bytes),
    }
}

/// The words of a text with these tokens.
pub fn words_of(alloc: Global, text: &[u8], tokens: &[Token]) -> Result<Vec<Word>, AllocError>
    requires { All (IsSpelled text.now) tokens.now }
    ensures words { IfOk result (λ words. AreWords text.now words.items) }
    ensures symbols { IfOk result (λ words. word_symbols text.now words.items ≡ symbols_of text.now tokens.now) }
{
    let mut found = Vec::new(alloc);
    'tokens: for token in tokens {
        let start = token.start as usize;
        let length = token.length as usize;
        let bytes = &text[start..][..length];
        found.push(Word {
            kind: kind_of(token.kind, bytes),
            start: token.start,
            length: token.length,
        })?;
    }
    Ok(found)
}
