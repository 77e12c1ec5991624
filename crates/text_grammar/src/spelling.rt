// How tokens are spelled: classes of bytes, numbers, escapes, signs and keywords.
ghost use Rattle.std.specs.Prelude.{◌≡◌, ◌==◌, ◌&&◌, ◌≤◌, ◌^◌, ◌<◌, ◌+◌, ℕ, length, slice_index, take, drop, IsTrue, IfSome, MatchOption, SomeIff};
ghost use Rattle.std.specs.List.{prefix_len, list_any};
ghost use Rattle.std.specs.Str.{bytes_eq};
ghost use Rattle.std.specs.Str.Parse.{AllDigits, digits_value};
ghost use Rattle.text_grammar.specs.Lexical.{is_space, is_letter, is_word_byte, is_plain, is_simple_escape, is_octal_digit, is_hex_digit, is_unsigned, body_of, is_hexadecimal, radix_of, digits_of, greatest, number_value, IsNumber, octal_escape, hex_escape, escape, element, character, is_long_sign, is_short_sign, sign_length, is_keyword, comment_end, is_not_newline, Elements};

const INT_MAX: u32 = 2147483647;

/// The byte at an index, or 0 past the end: no token has a byte 0.
pub fn byte_at(text: &[u8], index: usize) -> u8
    ensures value { result ≡ slice_index text.now index }
    ensures within { 1 ≤ result → index < length text.now }
{
    text.get(index).copied().unwrap_or(0)
}

#[tactic(auto, unfolding(crate::specs::Lexical::is_space))]
pub fn is_space(byte: u8) -> bool
    ensures value { result ≡ is_space byte }
    ensures some { IsTrue result → 1 ≤ byte }
{
    byte == b' ' || byte == b'\t' || byte == b'\n' || byte == b'\r'
}

#[tactic(auto, unfolding(crate::specs::Lexical::is_letter))]
pub fn is_letter(byte: u8) -> bool
    ensures value { result ≡ is_letter byte }
    ensures some { IsTrue result → 1 ≤ byte }
{
    byte.is_ascii_alphabetic() || byte == b'_'
}

#[tactic(auto, unfolding(crate::specs::Lexical::is_word_byte))]
pub fn is_word_byte(byte: u8) -> bool
    ensures { result ≡ is_word_byte byte }
{
    byte.is_ascii_alphanumeric() || byte == b'_'
}

#[tactic(auto, unfolding(crate::specs::Lexical::is_plain))]
fn is_plain(quote: u8, byte: u8) -> bool
    ensures value { result ≡ is_plain quote byte }
    ensures some { IsTrue result → 1 ≤ byte }
{
    (byte == b'\t' || (byte >= b' ' && byte != 0x7f)) && byte != b'\\' && byte != quote
}

#[tactic(auto, unfolding(crate::specs::Lexical::is_simple_escape))]
fn is_simple_escape(byte: u8) -> bool
    ensures value { result ≡ is_simple_escape byte }
    ensures some { IsTrue result → 1 ≤ byte }
{
    byte == b'n' || byte == b't' || byte == b'r' || byte == b'\\' || byte == b'\'' || byte == b'"'
}

pub fn is_octal_digit(byte: u8) -> bool
    ensures { result ≡ is_octal_digit byte }
{
    char::from(byte).is_digit(8)
}

fn is_hex_digit(byte: u8) -> bool
    ensures { result ≡ is_hex_digit byte }
{
    char::from(byte).is_digit(16)
}

/// How many letters, digits and `_` the text begins with.
pub fn word_length(text: &[u8]) -> usize
    ensures value { result ≡ prefix_len is_word_byte text.now }
    ensures within { result ≤ length text.now }
{
    text.iter().take_while(|byte| is_word_byte(**byte)).count()
}

pub fn octal_count(text: &[u8]) -> usize
    ensures value { result ≡ prefix_len is_octal_digit text.now }
    ensures within { result ≤ length text.now }
{
    text.iter()
        .take_while(|byte| is_octal_digit(**byte))
        .count()
}

pub fn hex_count(text: &[u8]) -> usize
    ensures value { result ≡ prefix_len is_hex_digit text.now }
    ensures within { result ≤ length text.now }
{
    text.iter().take_while(|byte| is_hex_digit(**byte)).count()
}

// The value of the digits, where each is one of the radix and the value is less than 2^32.
pub fn digits_value(radix: u32, digits: &[u8]) -> Option<u32>
    requires low { 2 ≤ radix }
    requires high { radix ≤ 36 }
    ensures { SomeIff result (AllDigits radix digits.now × (digits_value radix digits.now < 2 ^ 32)) (digits_value radix digits.now) }
{
    let mut value = 0u32;
    for byte in digits {
        let digit = char::from(*byte).to_digit(radix)?;
        value = value.checked_mul(radix)?.checked_add(digit)?;
    }
    Some(value)
}

#[tactic(auto, unfolding(crate::specs::Lexical::is_unsigned))]
pub fn is_unsigned(run: &[u8]) -> bool
    requires { 1 ≤ length run.now }
    ensures { result ≡ is_unsigned run.now }
{
    let last = byte_at(run, run.len() - 1);
    last == b'u' || last == b'U'
}

#[tactic(auto, unfolding(crate::specs::Lexical::body_of))]
fn without_suffix(run: &[u8]) -> &[u8]
    requires { 1 ≤ length run.now }
    ensures { result.now ≡ body_of run.now }
{
    if is_unsigned(run) {
        &run[..run.len() - 1]
    } else {
        run
    }
}

#[tactic(auto, unfolding(crate::specs::Lexical::is_hexadecimal))]
fn is_hexadecimal(body: &[u8]) -> bool
    ensures value { result ≡ is_hexadecimal body.now }
    ensures long { IsTrue result → 2 ≤ length body.now }
{
    body.len() >= 2
        && byte_at(body, 0) == b'0'
        && (byte_at(body, 1) == b'x' || byte_at(body, 1) == b'X')
}

#[tactic(auto, unfolding(crate::specs::Lexical::radix_of))]
fn radix_of(body: &[u8]) -> u32
    ensures value { result ≡ radix_of body.now }
    ensures low { 2 ≤ result }
    ensures high { result ≤ 36 }
{
    if is_hexadecimal(body) {
        16
    } else if byte_at(body, 0) == b'0' {
        8
    } else {
        10
    }
}

#[tactic(auto, unfolding(crate::specs::Lexical::digits_of))]
fn digits_of(body: &[u8]) -> &[u8]
    ensures { result.now ≡ digits_of body.now }
{
    if is_hexadecimal(body) {
        &body[2..]
    } else {
        body
    }
}

#[tactic(auto, unfolding(crate::specs::Lexical::greatest))]
fn greatest(radix: u32, unsigned: bool) -> u32
    ensures { result ≡ greatest radix unsigned }
{
    if radix == 10 && !unsigned {
        INT_MAX
    } else {
        u32::MAX
    }
}

/// The value of a number: a run of letters, digits and `_` that may be none.
#[tactic(auto, unfolding(crate::specs::Lexical::number_value))]
pub fn number(run: &[u8]) -> Option<u32>
    requires { 1 ≤ length run.now }
    ensures { SomeIff result (IsNumber run.now) (number_value run.now) }
{
    let body = without_suffix(run);
    let radix = radix_of(body);
    let digits = digits_of(body);
    if digits.is_empty() {
        return None;
    }
    let value = digits_value(radix, digits)?;
    if value > greatest(radix, is_unsigned(run)) {
        return None;
    }
    Some(value)
}

#[tactic(auto, unfolding(crate::specs::Lexical::octal_escape))]
fn octal_escape(digits: &[u8]) -> Option<usize>
    requires { AllDigits 8 digits.now }
    ensures value { result ≡ octal_escape digits.now }
    ensures within { IfSome result (λ n. n ≡ length digits.now + 1) }
{
    let value = digits_value(8, digits)?;
    if value > 255 {
        None
    } else {
        Some(digits.len() + 1)
    }
}

#[tactic(auto, unfolding(crate::specs::Lexical::hex_escape))]
fn hex_escape(count: usize) -> Option<usize>
    ensures value { result ≡ hex_escape count }
    ensures within { IfSome result (λ n. n ≡ count + 2) }
{
    if count == 1 || count == 2 {
        Some(count + 2)
    } else {
        None
    }
}

#[tactic(auto, unfolding(crate::specs::Lexical::sign_length))]
pub fn sign_length(text: &[u8]) -> usize
    ensures value { result ≡ sign_length text.now }
    ensures within { result ≤ length text.now }
{
    if is_long_sign(byte_at(text, 0), byte_at(text, 1)) {
        2
    } else if is_short_sign(byte_at(text, 0)) {
        1
    } else {
        0
    }
}

#[tactic(auto, unfolding(crate::specs::Lexical::is_long_sign, crate::specs::Lexical::long_signs))]
fn is_long_sign(first: u8, second: u8) -> bool
    ensures value { result ≡ is_long_sign first second }
    ensures some { IsTrue result → 1 ≤ second }
{
    match (first, second) {
        (b'|', b'|') | (b'&', b'&') | (b'=', b'=') | (b'!', b'=') => true,
        (b'<', b'=') | (b'>', b'=') | (b'<', b'<') | (b'>', b'>') | (b'-', b'>') => true,
        _ => false,
    }
}

#[tactic(auto, unfolding(crate::specs::Lexical::is_short_sign))]
fn is_short_sign(byte: u8) -> bool
    ensures value { result ≡ is_short_sign byte }
    ensures some { IsTrue result → 1 ≤ byte }
{
    b"+-*/%|&^~!<>=()[]{};,.".contains(&byte)
}

fn is_among(word: &[u8], words: &[&[u8]]) -> bool
    ensures { result ≡ list_any (λ other. bytes_eq word.now other.now) words.now }
{
    words.iter().any(|other| word == *other)
}

/// Whether the word is one of C that is no name. Only the keywords that begin as it does are compared with it.
pub fn is_keyword(word: &[u8]) -> bool
    ensures { result ≡ is_keyword word.now }
{
    match byte_at(word, 0) {
        b'a' => is_among(word, &[b"auto"]),
        b'b' => is_among(word, &[b"break"]),
        b'c' => is_among(word, &[b"char", b"const", b"continue", b"case"]),
        b'd' => is_among(word, &[b"do", b"default", b"double"]),
        b'e' => is_among(word, &[b"extern", b"else", b"enum"]),
        b'f' => is_among(word, &[b"for", b"float"]),
        b'g' => is_among(word, &[b"goto"]),
        b'i' => is_among(word, &[b"int", b"if", b"inline"]),
        b'l' => is_among(word, &[b"long"]),
        b'r' => is_among(word, &[b"register", b"return", b"restrict"]),
        b's' => is_among(
            word,
            &[
                b"signed", b"struct", b"static", b"sizeof", b"short", b"switch",
            ],
        ),
        b't' => is_among(word, &[b"typedef"]),
        b'u' => is_among(word, &[b"unsigned", b"union"]),
        b'v' => is_among(word, &[b"void", b"volatile"]),
        b'w' => is_among(word, &[b"while"]),
        _ => false,
    }
}

#[tactic(auto, unfolding(crate::specs::Lexical::escape))]
fn escape(text: &[u8]) -> Option<usize>
    ensures value { result ≡ escape text.now }
    ensures within { IfSome result (λ n. (1 ≤ n) × (n ≤ length text.now + 1)) }
{
    let first = byte_at(text, 0);
    if is_simple_escape(first) {
        Some(2)
    } else if is_octal_digit(first) {
        let most = &text[..text.len().min(3)];
        octal_escape(&most[..octal_count(most)])
    } else if first == b'x' {
        hex_escape(hex_count(&text[1..]))
    } else {
        None
    }
}

#[tactic(auto, unfolding(crate::specs::Lexical::element))]
pub fn element(quote: u8, text: &[u8]) -> Option<usize>
    ensures value { result ≡ element quote text.now }
    ensures within { IfSome result (λ n. (1 ≤ n) × (n ≤ length text.now)) }
{
    if byte_at(text, 0) == b'\\' {
        escape(&text[1..])
    } else if is_plain(quote, byte_at(text, 0)) {
        Some(1)
    } else {
        None
    }
}

/// How many bytes a character literal has whose text after the quote this is.
#[tactic(auto, unfolding(crate::specs::Lexical::character))]
pub fn character(text: &[u8]) -> Option<usize>
    ensures value { result ≡ character text.now }
    ensures within { IfSome result (λ n. (1 ≤ n) × (n ≤ length text.now + 1)) }
{
    let length = element(b'\'', text)?;
    if byte_at(text, length) == b'\'' {
        Some(length + 2)
    } else {
        None
    }
}

/// How many bytes the elements have in all that stand before the closing quote of a string literal.
pub fn elements(text: &[u8]) -> Option<usize>
    ensures value { MatchOption result ((n : ℕ) → Elements 34 text.now n → ⊥) (Elements 34 text.now) }
    ensures within { IfSome result (λ n. n < length text.now) }
{
    let mut at = 0;
    while at < text.len() {
        if text[at] == b'"' {
            return Some(at);
        }
        at += element(b'"', &text[at..])?;
    }
    None
}

// Whether `*/` stands at an index.
fn is_comment_end(text: &[u8], index: usize) -> bool
    requires { index < length text.now }
    ensures value { result ≡ (slice_index text.now index == 42 && slice_index text.now (index + 1) == 47) }
    ensures within { IsTrue result → index + 2 ≤ length text.now }
{
    byte_at(text, index) == b'*' && byte_at(text, index + 1) == b'/'
}

/// How many bytes there are to the end of the next `*/`.
pub fn comment_end(text: &[u8]) -> Option<usize>
    ensures value { result ≡ comment_end text.now }
    ensures within { IfSome result (λ n. n ≤ length text.now) }
{
    for i in 0..text.len() {
        if is_comment_end(text, i) {
            return Some(i + 2);
        }
    }
    None
}

/// How many bytes there are before the end of the line.
pub fn line_length(text: &[u8]) -> usize
    ensures value { result ≡ prefix_len is_not_newline text.now }
    ensures within { result ≤ length text.now }
{
    text.iter().take_while(|byte| **byte != b'\n').count()
}
