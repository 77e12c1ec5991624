// The text of tokens.
ghost use Rattle.std.specs.Prelude.{◌≡◌, ◌<◌, ◌∷◌, [], ◌++◌, OnOk};
ghost use Rattle.std.specs.List.{flat_map};
ghost use Rattle.text_print.specs.Spelling.{number_text, hex_digit, escaped, character_text, string_text};
ghost use Rattle.text_print.specs.Canonical.{spaced};
ghost use Rattle.text_print.specs.Pieces.{token_of, tokens_in};

use crate::pieces::Piece;
use crate::signs::spelling;
use cc_base::word_text;
use std::alloc::AllocError;

// A digit of 0 to 15, in lower case.
#[tactic(auto, unfolding(crate::specs::Spelling::hex_digit))]
fn hex_digit(digit: u8) -> u8
    requires { digit < 16 }
    ensures { result ≡ hex_digit digit }
{
    if digit < 10 {
        b'0' + digit
    } else {
        b'W' + digit
    }
}

// A byte as a hexadecimal escape.
#[tactic(auto, unfolding(crate::specs::Spelling::escaped))]
fn write_escaped(text: &mut Vec<u8>, byte: u8) -> Result<(), AllocError>
    ensures { OnOk result (text.new.items ≡ text.old.items ++ escaped byte) }
{
    text.extend_from_slice(&[b'\\', b'x', hex_digit(byte / 16), hex_digit(byte % 16)])?;
    Ok(())
}

#[tactic(auto, unfolding(crate::specs::Spelling::number_text))]
fn write_number(text: &mut Vec<u8>, value: u32, is_unsigned: bool) -> Result<(), AllocError>
    ensures { OnOk result (text.new.items ≡ text.old.items ++ number_text value is_unsigned) }
{
    text.extend_from_slice(word_text(value as u64).as_slice())?;
    if is_unsigned {
        text.push(b'u')?;
    }
    Ok(())
}

#[tactic(auto, unfolding(crate::specs::Spelling::character_text))]
fn write_character(text: &mut Vec<u8>, byte: u8) -> Result<(), AllocError>
    ensures { OnOk result (text.new.items ≡ text.old.items ++ character_text byte) }
{
    text.push(b'\'')?;
    write_escaped(text, byte)?;
    text.push(b'\'')?;
    Ok(())
}

fn write_elements(text: &mut Vec<u8>, bytes: &[u8]) -> Result<(), AllocError>
    ensures { OnOk result (text.new.items ≡ text.old.items ++ flat_map escaped bytes.now) }
{
    'bytes: for byte in bytes {
        write_escaped(text, *byte)?;
    }
    Ok(())
}

#[tactic(auto, unfolding(crate::specs::Spelling::string_text))]
fn write_string(text: &mut Vec<u8>, bytes: &[u8]) -> Result<(), AllocError>
    ensures { OnOk result (text.new.items ≡ text.old.items ++ string_text bytes.now) }
{
    text.push(b'"')?;
    write_elements(text, bytes)?;
    text.push(b'"')?;
    Ok(())
}

fn write_piece(text: &mut Vec<u8>, piece: &Piece<'_>) -> Result<(), AllocError>
    ensures { OnOk result (text.new.items ≡ text.old.items ++ (token_of piece.now).text) }
{
    match piece {
        Piece::Fixed(kind) => {
            text.extend_from_slice(spelling(*kind))?;
            Ok(())
        }
        Piece::Name(bytes) => {
            text.extend_from_slice(bytes)?;
            Ok(())
        }
        Piece::Number(value, is_unsigned) => write_number(text, *value, *is_unsigned),
        Piece::Character(byte) => write_character(text, *byte),
        Piece::String(bytes) => write_string(text, bytes),
    }
}

/// The tokens with single spaces between them.
pub fn write_spaced(text: &mut Vec<u8>, pieces: &[Piece<'_>]) -> Result<(), AllocError>
    ensures { OnOk result (text.new.items ≡ text.old.items ++ spaced (tokens_in pieces.now)) }
{
    match pieces {
        [] => Ok(()),
        [first, rest @ ..] => {
            write_piece(text, first)?;
            'rest: for piece in rest {
                text.push(b' ')?;
                write_piece(text, piece)?;
            }
            Ok(())
        }
    }
}
