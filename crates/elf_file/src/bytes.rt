// Numbers as bytes, the lowest first.
ghost use Rattle.std.specs.Prelude.{◌≡◌, ◌≤◌, [], ◌∷◌, ◌++◌, replicate, OnOk};
ghost use Rattle.elf_file.specs.Places.{words_bytes, half_bytes};

use byteorder::{ByteOrder, LittleEndian};
use std::alloc::AllocError;

/// How many zeros a gap has at most.
const GAP: usize = 15;

// Appends the bytes of a word.
pub(crate) fn put_word(out: &mut Vec<u8>, word: u32) -> Result<(), AllocError>
    ensures { OnOk result (out.new.items ≡ out.old.items ++ words_bytes (word ∷ [])) }
{
    let mut bytes = [0; 4];
    LittleEndian::write_u32(&mut bytes, word);
    out.extend_from_slice(&bytes)
}

// Appends the bytes of a number of 16 bits.
pub(crate) fn put_half(out: &mut Vec<u8>, half: u16) -> Result<(), AllocError>
    ensures { OnOk result (out.new.items ≡ out.old.items ++ half_bytes half) }
{
    let mut bytes = [0; 2];
    LittleEndian::write_u16(&mut bytes, half);
    out.extend_from_slice(&bytes)
}

// Appends the bytes of these words, one after the other.
pub(crate) fn put_words(out: &mut Vec<u8>, words: &[u32]) -> Result<(), AllocError>
    ensures { OnOk result (out.new.items ≡ out.old.items ++ words_bytes words.now) }
{
    for word in words {
        put_word(out, *word)?;
    }
    Ok(())
}

// Appends so many zeros.
pub(crate) fn put_zeros(out: &mut Vec<u8>, count: usize) -> Result<(), AllocError>
    requires { count ≤ 15 }
    ensures { OnOk result (out.new.items ≡ out.old.items ++ replicate count 0) }
{
    let zeros = [0; GAP];
    out.extend_from_slice(&zeros[..count])
}
