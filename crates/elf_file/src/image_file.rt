// The file of an image.
ghost use Rattle.std.specs.Prelude.{◌≡◌, ℕ, List, ◌≤◌, ◌++◌, OnOk, IfOk};
ghost use Rattle.elf_file.specs.Pieces.{joined};
ghost use Rattle.elf_file.specs.Image.{WellFormedImage, WrittenImage};
ghost use Rattle.elf_file.specs.ImageNumbers.{image_headers};
ghost use Rattle.elf_file.specs.declared.image.ImageParts.{ImageParts};

use crate::bytes::put_words;
use crate::image::{FILE_ADDRESS, ImageParts};
use crate::image_headers::{COUNTS, IDENT, Numbers, contents_at, header_words, program_words};
use std::alloc::{AllocError, Global};

/// The file of an image, or want of memory.
pub fn write_image(alloc: Global, parts: &ImageParts) -> Result<Vec<u8>, AllocError>
    requires { WellFormedImage parts.now }
    ensures { IfOk result (λ file. WrittenImage parts.now file.items) }
{
    let segment = parts.segments.at(0);
    let bytes = segment.bytes.as_slice();
    let numbers = Numbers {
        entry: parts.entry,
        start: segment.start,
        file_size: bytes.len() as u32,
        size: segment.size,
        flags: segment.flags,
    };
    let start = contents_at(numbers) as usize;
    let mut out = Vec::with_capacity(alloc, start + bytes.len())?;
    put_headers(&mut out, numbers)?;
    out.resize(start, 0)?;
    out.extend_from_slice(bytes)?;
    Ok(out)
}

// Appends the file header and the program header of an image with these numbers.
fn put_headers(out: &mut Vec<u8>, numbers: Numbers) -> Result<(), AllocError>
    requires { FILE_ADDRESS ≤ numbers.start }
    ensures { OnOk result (out.new.items ≡ out.old.items ++ joined (image_headers numbers)) }
{
    out.extend_from_slice(IDENT)?;
    put_words(out, &header_words(numbers))?;
    out.extend_from_slice(COUNTS)?;
    put_words(out, &program_words(numbers))
}

/// A well-formed image has one file: what `WrittenImage` says of a file leaves none of its bytes open.
pub fn image_has_one_file()
    ensures { (parts : ImageParts) (one other : List ℕ) → WellFormedImage parts → WrittenImage parts one → WrittenImage parts other → one ≡ other }
{}
