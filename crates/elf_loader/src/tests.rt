// The worked image of one segment, loaded and run. That a segment leaves the addresses of images cannot be tried: such a
// file is none that is read.
ghost use Rattle.std.specs.Prelude.{◌^◌, ◌<◌, length, IfOk};
ghost use Rattle.elf_file.specs.Image.{WellFormedImage};

use crate::{LoadFault, load};
use cc_base::{Bytes, Calls, MemSink, MemSource};
use elf_file::{ImageParts, SegmentPart, SegmentParts, read_image, write_image};
use i386_machine::{RunEnd, run};
use std::alloc::{AllocError, Global};
use std::test::Fail;

const CODE: u32 = 0x0804_9000;

// call 0x0804900E; mov ebx,eax; mov eax,1; int 0x80; and there mov eax,7; ret
const ENDS_WITH_7: &[u8; 20] = b"\xe8\x09\0\0\0\x89\xc3\xb8\x01\0\0\0\xcd\x80\xb8\x07\0\0\0\xc3";

// The image of this code, with zeros behind it up to 30 bytes.
fn parts_of(alloc: Global, entry: u32, flags: u32) -> Result<ImageParts, AllocError>
    ensures { IfOk result WellFormedImage }
{
    let mut segments = SegmentParts::new(alloc);
    segments.push(SegmentPart {
        start: CODE,
        flags,
        size: 30,
        bytes: Bytes::from_slice(alloc, ENDS_WITH_7)?,
    })?;
    Ok(ImageParts { entry, segments })
}

#[test]
fn the_image_runs(rt: HostRuntime) -> Result<(), Fail> {
    let alloc = rt.alloc();
    let file = write_image(alloc, &parts_of(alloc, CODE, 5)?)?;
    assert!(rt; file.len() < 5000);
    let view = read_image(alloc, file.as_slice())?;
    let table = [
        (6, RunEnd::Ended(7), CODE + 12),
        (5, RunEnd::Spent, CODE + 12),
        (0, RunEnd::Spent, CODE),
    ];
    for (steps, want, eip) in table {
        let mut machine = load(alloc, &view)
            .ok()
            .expect(&rt, "an image that is loaded");
        assert_eq!(rt; machine.byte_at(CODE + 19), Some(0xc3));
        assert_eq!(rt; machine.byte_at(CODE + 29), Some(0));
        assert_eq!(rt; machine.byte_at(CODE + 30), None);
        assert_eq!(rt; machine.byte_at(0xbff0_0000), Some(0));
        assert_eq!(rt; machine.byte_at(0xbfef_ffff), None);
        let mut input = MemSource::new(Bytes::new(alloc), Calls::new(alloc));
        let mut output = MemSink::new(alloc, Calls::new(alloc));
        let end = run(&mut machine, steps, &mut input, &mut output);
        assert_eq!(rt; end, want);
        assert_eq!(rt; machine.eip(), eip);
    }
    Ok(())
}

#[test]
fn an_entry_outside_is_a_fault(rt: HostRuntime) -> Result<(), Fail> {
    let alloc = rt.alloc();
    let table = [
        (CODE + 29, 5, None),
        (CODE + 30, 5, Some(LoadFault::Entry)),
        (CODE - 1, 5, Some(LoadFault::Entry)),
        (CODE, 6, Some(LoadFault::Entry)),
        (CODE, 1, None),
    ];
    for (entry, flags, want) in table {
        let file = write_image(alloc, &parts_of(alloc, entry, flags)?)?;
        assert!(rt; file.len() < 5000);
        let view = read_image(alloc, file.as_slice())?;
        assert_eq!(rt; load(alloc, &view).err(), want);
    }
    Ok(())
}
