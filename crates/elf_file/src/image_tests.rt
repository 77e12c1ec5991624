// Images whose headers were written down by hand from the description of the format.
ghost use Rattle.std.specs.Prelude.{◌<◌, ◌≤◌, length, IfOk};
ghost use Rattle.elf_file.specs.Image.{WellFormedImage};

use crate::{ElfFault, ImageParts, SegmentPart, SegmentParts, read_image, write_image};
use cc_base::Bytes;
use std::alloc::{AllocError, Global};
use std::test::Fail;

// call, mov, mov, int 0x80; and a function that returns 7
const CODE: &[u8] = b"\xe8\x09\0\0\0\x89\xc3\xb8\x01\0\0\0\xcd\x80\xb8\x07\0\0\0\xc3";

/// The headers of the image of this code: entry and segment at 0x08049000, 20 bytes at 4096, flags 5.
const CODE_HEADERS: &[u8; 84] =
    b"\x7fELF\x01\x01\x01\0\0\0\0\0\0\0\0\0\x02\0\x03\0\x01\0\0\0\0\x90\x04\x08\x34\0\0\0\0\0\0\0\0\0\0\0\
    \x34\0\x20\0\x01\0\0\0\0\0\0\0\
    \x01\0\0\0\0\x10\0\0\0\x90\x04\x08\0\x90\x04\x08\x14\0\0\0\x14\0\0\0\x05\0\0\0\0\x10\0\0";

/// The headers of an image of 300 zeroed bytes.
const ZEROS_HEADERS: &[u8; 84] =
    b"\x7fELF\x01\x01\x01\0\0\0\0\0\0\0\0\0\x02\0\x03\0\x01\0\0\0\0\x90\x04\x08\x34\0\0\0\0\0\0\0\0\0\0\0\
    \x34\0\x20\0\x01\0\0\0\0\0\0\0\
    \x01\0\0\0\0\x10\0\0\0\x90\x04\x08\0\x90\x04\x08\0\0\0\0\x2c\x01\0\0\x05\0\0\0\0\x10\0\0";

// The file of these headers, zeros up to a place, and these bytes.
fn by_hand(
    alloc: Global,
    headers: &[u8],
    bytes: &[u8],
    gap_end: usize,
) -> Result<Vec<u8>, AllocError> {
    let mut file = Vec::new(alloc);
    file.extend_from_slice(headers)?;
    file.resize(gap_end, 0)?;
    file.extend_from_slice(bytes)?;
    Ok(file)
}

// An image of one segment at 0x08049000.
fn parts_of(alloc: Global, size: u32, bytes: &[u8]) -> Result<ImageParts, AllocError>
    requires some { 0 < size }
    requires whole { length bytes.now ≤ size }
    requires small { size ≤ 4096 }
    ensures { IfOk result WellFormedImage }
{
    let mut segments = SegmentParts::new(alloc);
    segments.push(SegmentPart {
        start: 0x0804_9000,
        flags: 5,
        size,
        bytes: Bytes::from_slice(alloc, bytes)?,
    })?;
    Ok(ImageParts {
        entry: 0x0804_9000,
        segments,
    })
}

#[test]
fn images_are_written_and_read(rt: HostRuntime) -> Result<(), Fail> {
    let alloc = rt.alloc();
    let table: [(&[u8], usize, u32, &[u8]); 2] = [
        (CODE_HEADERS, 4096, 20, CODE),
        (ZEROS_HEADERS, 84, 300, b""),
    ];
    for (headers, gap_end, size, bytes) in table {
        assert!(rt; 0 < size && size <= 4096 && bytes.len() <= size as usize);
        let parts = parts_of(alloc, size, bytes)?;
        let file = by_hand(alloc, headers, bytes, gap_end)?;
        assert_eq!(rt; write_image(alloc, &parts)?.as_slice(), file.as_slice());
        assert!(rt; file.len() < 5000);
        let view = read_image(alloc, file.as_slice())?;
        assert_eq!(rt; view.segments(), 1);
        let numbers = [
            view.entry(),
            view.segment_start(0),
            view.segment_flags(0),
            view.segment_size(0),
        ];
        assert_eq!(rt; numbers, [0x0804_9000, 0x0804_9000, 5, size]);
        assert_eq!(rt; view.segment_bytes(0), bytes);
    }
    Ok(())
}

#[test]
fn other_images_are_refused(rt: HostRuntime) -> Result<(), Fail> {
    let alloc = rt.alloc();
    let mut longer = by_hand(alloc, CODE_HEADERS, CODE, 4096)?;
    longer.push(0)?;
    let mut gap = by_hand(alloc, CODE_HEADERS, CODE, 4096)?;
    assert!(rt; gap.len() == 4116);
    gap[84] = 1;
    let mut magic = by_hand(alloc, CODE_HEADERS, CODE, 4096)?;
    assert!(rt; magic.len() == 4116);
    magic[0] = 0x7e;
    let short = by_hand(alloc, CODE_HEADERS, b"", 83)?;
    for file in &[longer, gap, magic, short] {
        assert!(rt; file.len() < 5000);
        assert_eq!(rt;
            read_image(alloc, file.as_slice()).err(),
            Some(ElfFault::Form)
        );
    }
    Ok(())
}
