// What an image has, apart from how it stands in a file.
use cc_base::{Bytes, Sequence};

/// The address of the beginning of an image's file: what stands at an offset of the file has the address `FILE_ADDRESS`
/// plus that offset. All addresses of an image lie from here up to `END_ADDRESS`.
pub const FILE_ADDRESS: u32 = 0x0804_8000;

/// The first address that a segment may have: a page behind the headers.
pub const FIRST_ADDRESS: u32 = 0x0804_9000;

/// The end of all addresses of an image.
pub const END_ADDRESS: u64 = 0x0904_8000;

/// A segment: its address, its rights (`p_flags`: 1 to execute, 2 to write, 4 to read), its size in memory in bytes, and
/// its first bytes. The others are zero.
#[derive(Drop)]
pub struct SegmentPart {
    pub start: u32,
    pub flags: u32,
    pub size: u32,
    pub bytes: Bytes,
}

/// The segments of an image, in the order of their addresses.
pub type SegmentParts = Sequence<SegmentPart>;

/// An image: the address of its first instruction, and its segments.
#[derive(Drop)]
pub struct ImageParts {
    pub entry: u32,
    pub segments: SegmentParts,
}
