// Reads an image from its file.
ghost use Rattle.std.specs.Prelude.{◌≡◌, ◌+◌, ◌*◌, ◌^◌, ◌<◌, ◌≤◌, ◌↔◌, length, IsTrue};
ghost use Rattle.elf_file.specs.Places.{Stands, words_bytes};
ghost use Rattle.elf_file.specs.ImageNumbers.{numbers_in, Proper, HeadersStand, ContentsStand, ImageStands};

use crate::fields::word_at;
use crate::image::{END_ADDRESS, FIRST_ADDRESS};
use crate::image_headers::{
    COUNTS, FILE_HEADER, HEADERS, IDENT, Numbers, contents_at, header_words, program_words,
};
use crate::read::{stands, zeros_stand};

// The numbers that the headers give.
pub(crate) fn numbers_of(file: &[u8]) -> Numbers
    requires { 84 ≤ length file.now }
    ensures { result ≡ numbers_in file.now }
{
    Numbers {
        entry: word_at(file, 24),
        start: word_at(file, 60),
        file_size: word_at(file, 68),
        size: word_at(file, 72),
        flags: word_at(file, 76),
    }
}

// Whether the segment has a size and no more bytes than its size, and lies where segments may lie.
fn is_proper(numbers: Numbers) -> bool
    ensures { IsTrue result ↔ Proper numbers }
{
    numbers.size > 0
        && numbers.file_size <= numbers.size
        && numbers.start >= FIRST_ADDRESS
        && u64::from(numbers.start) + u64::from(numbers.size) <= END_ADDRESS
}

// Whether these words stand at a place of the file, one after the other.
fn words_stand(file: &[u8], at: u32, words: &[u32]) -> bool
    requires inside { at + 4 * length words.now ≤ length file.now }
    requires small { length file.now < 2 ^ 32 }
    ensures { IsTrue result ↔ Stands file.now at (words_bytes words.now) }
{
    for (i, word) in words.iter().enumerate() {
        if !stands(file, at + 4 * i as u32, &word.to_le_bytes()) {
            return false;
        }
    }
    true
}

// Whether the headers are those of an image with these numbers.
fn headers_stand(file: &[u8], numbers: Numbers) -> bool
    requires proper { Proper numbers }
    requires inside { 84 ≤ length file.now }
    requires small { length file.now < 2 ^ 32 }
    ensures { IsTrue result ↔ HeadersStand file.now numbers }
{
    stands(file, 0, IDENT)
        && words_stand(file, 20, &header_words(numbers))
        && stands(file, 40, COUNTS)
        && words_stand(file, FILE_HEADER, &program_words(numbers))
}

// Whether behind the headers there are zeros up to the segment's bytes, and nothing behind these.
fn contents_stand(file: &[u8], numbers: Numbers) -> bool
    requires proper { Proper numbers }
    requires small { length file.now < 2 ^ 32 }
    ensures { IsTrue result ↔ ContentsStand file.now numbers }
{
    let start = contents_at(numbers);
    file.len() as u64 == u64::from(start) + u64::from(numbers.file_size)
        && zeros_stand(file, HEADERS, start)
}

// Whether the file is that of an image with these numbers.
pub(crate) fn image_stands(file: &[u8], numbers: Numbers) -> bool
    requires inside { 84 ≤ length file.now }
    requires small { length file.now < 2 ^ 32 }
    ensures { IsTrue result ↔ ImageStands file.now numbers }
{
    is_proper(numbers) && headers_stand(file, numbers) && contents_stand(file, numbers)
}
