// How a text is cut into tokens.
use std::alloc::{AllocError, Global};
use text_grammar::{SyntaxFault, Token, TokenKind, tokens};

fn token(kind: TokenKind, start: u32, length: u32) -> Token {
    Token {
        kind,
        start,
        length,
    }
}

// Whether the text is cut into these tokens.
fn is_cut_into(alloc: Global, text: &[u8], expected: &[Token]) -> Result<bool, SyntaxFault> {
    let found = tokens(alloc, text)?;
    Ok(found.as_slice() == expected)
}

#[test]
fn tells_the_kinds_of_tokens(rt: HostRuntime) -> Result<(), SyntaxFault> {
    let expected = [
        token(TokenKind::Keyword, 0, 3),
        token(TokenKind::Id, 4, 4),
        token(TokenKind::Sign, 8, 1),
        token(TokenKind::Keyword, 9, 4),
        token(TokenKind::Sign, 13, 1),
        token(TokenKind::Sign, 15, 1),
        token(TokenKind::Keyword, 17, 6),
        token(TokenKind::Char, 24, 3),
        token(TokenKind::Sign, 28, 1),
        token(TokenKind::Num, 30, 5),
        token(TokenKind::Sign, 35, 1),
        token(TokenKind::Sign, 37, 1),
    ];
    let text = b"int main(void) { return 'a' + 0x1Fu; } // c";
    assert!(rt; is_cut_into(rt.alloc(), text, &expected)?);
    Ok(())
}

#[test]
fn takes_the_longest_sign(rt: HostRuntime) -> Result<(), SyntaxFault> {
    let expected = [
        token(TokenKind::Id, 0, 1),
        token(TokenKind::Sign, 1, 2),
        token(TokenKind::Id, 3, 1),
        token(TokenKind::Sign, 4, 1),
        token(TokenKind::Sign, 5, 1),
        token(TokenKind::Id, 6, 1),
        token(TokenKind::Sign, 7, 2),
        token(TokenKind::Sign, 9, 1),
        token(TokenKind::Sign, 10, 2),
        token(TokenKind::Sign, 12, 1),
        token(TokenKind::Sign, 13, 2),
        token(TokenKind::Sign, 15, 2),
    ];
    assert!(rt; is_cut_into(rt.alloc(), b"a->b--c<<=&&&||!=", &expected)?);
    Ok(())
}

#[test]
fn passes_over_comments(rt: HostRuntime) -> Result<(), SyntaxFault> {
    let expected = [token(TokenKind::Id, 9, 1), token(TokenKind::Id, 16, 3)];
    assert!(rt; is_cut_into(rt.alloc(), b"/*/ * **/x//y*/\n_z9/**/", &expected)?);
    Ok(())
}

#[test]
fn takes_whole_literals(rt: HostRuntime) -> Result<(), SyntaxFault> {
    let expected = [
        token(TokenKind::Char, 0, 4),
        token(TokenKind::Str, 4, 16),
        token(TokenKind::Char, 20, 6),
        token(TokenKind::Num, 26, 2),
        token(TokenKind::Num, 29, 1),
        token(TokenKind::Num, 31, 4),
    ];
    let text = b"'\\''\"a\\\"\\x0g\\0123\\t\"'\\377'07 0 0xfu";
    assert!(rt; is_cut_into(rt.alloc(), text, &expected)?);
    Ok(())
}

#[test]
fn takes_the_greatest_numbers(rt: HostRuntime) -> Result<(), SyntaxFault> {
    let expected = [
        token(TokenKind::Num, 0, 10),
        token(TokenKind::Num, 11, 11),
        token(TokenKind::Num, 23, 12),
    ];
    let text = b"2147483647 2147483648u 037777777777";
    assert!(rt; is_cut_into(rt.alloc(), text, &expected)?);
    Ok(())
}

#[test]
fn tells_keywords_from_names(rt: HostRuntime) -> Result<(), SyntaxFault> {
    let expected = [token(TokenKind::Keyword, 0, 4), token(TokenKind::Id, 5, 8)];
    assert!(rt; is_cut_into(rt.alloc(), b"goto typedefs", &expected)?);
    Ok(())
}

#[test]
fn answers_the_first_literal_that_is_none(rt: HostRuntime) {
    let table: [(&[u8], u32); 22] = [
        (b"int x = 4294967296u;", 8),
        (b"x 2147483648", 2),
        (b"08 @", 0),
        (b" 0x", 1),
        (b"1a", 0),
        (b"12uu", 0),
        (b"040000000000", 0),
        (b"0x100000000", 0),
        (b"''", 0),
        (b"'ab'", 0),
        (b"'a", 0),
        (b"'\\400'", 0),
        (b"\"\\400\"", 0),
        (b"'\\8'", 0),
        (b"'\\x'", 0),
        (b"'\\x123'", 0),
        (b"\"\\x123\"", 0),
        (b"\"\\q\"", 0),
        (b"\"a", 0),
        (b"\"a\nb\"", 0),
        (b"\"\\\"", 0),
        (b"'\x7f'", 0),
    ];
    for (text, at) in table {
        let answer = tokens(rt.alloc(), text).err();
        assert!(rt; answer == Some(SyntaxFault::Literal { at }));
    }
}

#[test]
fn answers_the_first_place_without_token(rt: HostRuntime) {
    let table: [(&[u8], u32); 8] = [
        (b"int x = 1 @ 2;", 10),
        (b"x /* y *", 2),
        (b"x /*/", 2),
        (b"@ 08", 0),
        (b"\x0b", 0),
        (b" \x0c", 1),
        (b"a\0", 1),
        (b"\xc3\xa4", 0),
    ];
    for (text, at) in table {
        let answer = tokens(rt.alloc(), text).err();
        assert!(rt; answer == Some(SyntaxFault::Char { at }));
    }
}

#[test]
fn takes_a_megabyte_and_no_more(rt: HostRuntime) -> Result<(), AllocError> {
    let mut text = vec![in rt.alloc(); b' '; 1_048_576]?;
    assert!(rt; tokens(rt.alloc(), &text).is_ok());
    text.push(b'@')?;
    assert!(rt; tokens(rt.alloc(), &text).err() == Some(SyntaxFault::Long));
    Ok(())
}
