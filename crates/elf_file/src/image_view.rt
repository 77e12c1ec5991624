// An image in its file.
ghost use Rattle.std.specs.Prelude.{◌≡◌, ℕ, List, ◌^◌, ◌<◌, length, IfOk, IsErrOf, MatchResult};
ghost use Rattle.elf_file.specs.Image.{IsImageOf};
ghost use Rattle.elf_file.specs.ImageBytes.{ImageBytes};
ghost use Rattle.elf_file.specs.ImageView.{segment_of, SegmentsApart};
ghost use Rattle.elf_file.specs.declared.image.ImageParts.{ImageParts};

use crate::fault::ElfFault;
use crate::fields::slice_at;
use crate::image_headers::{HEADERS, contents_at};
use crate::image_read::{image_stands, numbers_of};
use std::alloc::Global;
use std::marker::Model;

/// An image in its file: its entry and its one segment. It borrows the file and copies nothing.
#[derive(Drop)]
pub struct ImageView<'a> {
    bytes: &'a [u8],
    entry: u32,
    start: u32,
    flags: u32,
    size: u32,
}

impl<'a> Model for ImageView<'a> {
    ghost use Rattle.std.specs.Prelude.{[], ◌∷◌};
    ghost use Rattle.elf_file.specs.ImageView.{SegmentFits};
    ghost use Rattle.elf_file.specs.declared.image.ImageParts.{ImageParts};

    ghost Value = { ImageParts };

    ghost view = { λ v. record { entry = v.entry; segments = record { start = v.start; flags = v.flags; size = v.size; bytes = v.bytes.now } ∷ [] } };

    ghost invariant = { λ v. SegmentFits (record { start = v.start; flags = v.flags; size = v.size; bytes = v.bytes.now }) };
}

impl<'a> ImageView<'a> {
    /// The address of the first instruction.
    pub fn entry(&self) -> u32
        ensures { result ≡ self.now.entry }
    {
        self.entry
    }

    /// How many segments there are.
    pub fn segments(&self) -> u32
        ensures { result ≡ length self.now.segments }
    {
        let _ = &self.entry;
        1
    }

    /// The address of a segment, counted from 0.
    pub fn segment_start(&self, index: u32) -> u32
        requires { index < length self.now.segments }
        ensures { result ≡ (segment_of self.now index).start }
    {
        let _ = index;
        self.start
    }

    /// The rights of a segment: 1 to execute, 2 to write, 4 to read.
    pub fn segment_flags(&self, index: u32) -> u32
        requires { index < length self.now.segments }
        ensures { result ≡ (segment_of self.now index).flags }
    {
        let _ = index;
        self.flags
    }

    /// How many bytes a segment has in memory.
    pub fn segment_size(&self, index: u32) -> u32
        requires { index < length self.now.segments }
        ensures { result ≡ (segment_of self.now index).size }
    {
        let _ = index;
        self.size
    }

    /// The first bytes of a segment: a slice of the file. Its others are zero.
    pub fn segment_bytes(&self, index: u32) -> &'a [u8]
        requires { index < length self.now.segments }
        ensures { result.now ≡ (segment_of self.now index).bytes }
    {
        let _ = index;
        self.bytes
    }

    /// A law of every image that is read: its segments are not empty, have no more bytes than their sizes, and each
    /// lies behind the one before it. It does nothing.
    pub fn has_segments_apart(&self)
        ensures { SegmentsApart self.now }
    {
        let _ = &self.entry;
    }
}

/// The image of a file: of the one file that is written for well-formed parts of one segment. Every other file is
/// refused as `Form`.
pub fn read_image(alloc: Global, file: &[u8]) -> Result<ImageView<'_>, ElfFault>
    requires { length file.now < 2 ^ 32 }
    // The file is the one that is written for what is read.
    ensures ok { IfOk result (λ view. IsImageOf view file.now) }
    // So its fields say what is read.
    ensures bytes { IfOk result (λ view. ImageBytes view file.now) }
    // A file is refused only where it is the file of no parts.
    ensures form { IsErrOf result ElfFault.Form → (parts : ImageParts) → IsImageOf parts file.now → ⊥ }
    // What is written for parts is read back as those parts, unless there is no memory.
    ensures back { (parts : ImageParts) → IsImageOf parts file.now → MatchResult result (λ view. view ≡ parts) (λ fault. fault ≡ ElfFault.Memory) }
{
    let _ = alloc;
    if file.len() < HEADERS as usize {
        return Err(ElfFault::Form);
    }
    let numbers = numbers_of(file);
    if !image_stands(file, numbers) {
        return Err(ElfFault::Form);
    }
    Ok(ImageView {
        bytes: slice_at(file, contents_at(numbers), numbers.file_size),
        entry: numbers.entry,
        start: numbers.start,
        flags: numbers.flags,
        size: numbers.size,
    })
}

/// A file is the image of one parts only.
pub fn image_has_one_meaning()
    ensures { (one other : ImageParts) (file : List ℕ) → IsImageOf one file → IsImageOf other file → one ≡ other }
{}
