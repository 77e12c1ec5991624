// Units that are compiled alone and linked: what stands in the image, byte for byte.
ghost use Rattle.std.specs.Prelude.{◌≤◌, IfOk};
ghost use Rattle.elf_file.specs.Image.{WellFormedImage};

use cc_base::Bytes;
use elf_file::{ImageParts, ObjectParts, RelocParts, SymbolParts, read_object, write_object};
use elf_linker::{Inputs, LinkFault, link, runtime_parts};
use second_code::unit_object;
use std::alloc::{AllocError, Global};
use std::test::Fail;
use text_parser::parse;

const A: &str = "int f(void); int main(void) { f(); putbyte(66); return 3; }";

const B: &str = "int f(void) { putbyte(65); return 0; }";

/// The code of A and B at 0x08049000 and 0x08049020, and the runtime at 0x08049040. Relocated words are S + A - P, where A
/// is -4: at 1 0x20 - 4 - 1, at 12 0x40 + 70 - 4 - 12, at 0x27 0x40 + 70 - 4 - 0x27, and at 0x41 0 - 4 - 0x41.
const CODE: &[u8; 158] = b"\xe8\x1b\0\0\0\xb8\x42\0\0\0\x50\xe8\x76\0\0\0\x58\xb8\x03\0\0\0\xc3\
    \0\0\0\0\0\0\0\0\0\
    \xb8\x41\0\0\0\x50\xe8\x5b\0\0\0\x58\xb8\0\0\0\0\xc3\
    \0\0\0\0\0\0\0\0\0\0\0\0\0\0\
    \xe8\xbb\xff\xff\xff\x89\xc3\xb8\x01\0\0\0\xcd\x80\
    \x53\x81\xec\x04\0\0\0\xbb\0\0\0\0\x89\xe1\xba\x01\0\0\0\xb8\x03\0\0\0\xcd\x80\x85\xc0\
    \x0f\x84\x09\0\0\0\x0f\xb6\x04\x24\xe9\x05\0\0\0\xb8\xff\xff\xff\xff\x81\xc4\x04\0\0\0\x5b\xc3\
    \x53\xbb\x01\0\0\0\x8d\x4c\x24\x08\xba\x01\0\0\0\xb8\x04\0\0\0\xcd\x80\x5b\xc3";

/// A byte of an object's file that is changed: the object's number, the byte's place, and its new value.
type Patch = (usize, usize, u8);

// The files of these units' objects.
fn compiled(alloc: Global, units: &[&str]) -> Result<Vec<Vec<u8>>, Fail> {
    let mut files = Vec::new(alloc);
    for unit in units {
        let tree = parse(alloc, unit.as_bytes()).ok().ok_or("no tree")?;
        files.push(unit_object(alloc, &tree)?.ok_or("no unit")?)?;
    }
    Ok(files)
}

fn patch(files: &mut [Vec<u8>], patches: &[Patch]) -> Result<(), Fail> {
    for (number, place, byte) in patches {
        let file = files.get_mut(*number).ok_or("no object")?;
        let old = file.get_mut(*place).ok_or("no byte")?;
        *old = *byte;
    }
    Ok(())
}

// The file of an object whose text is so many zeros, and that has no symbols.
#[tactic(auto, using(crate::proofs::TextFits::text_fits))]
fn zeros_object(alloc: Global, size: usize) -> Result<Vec<u8>, AllocError>
    requires { size ≤ 16777216 }
{
    let parts = ObjectParts {
        text: Bytes::from_vec(vec![in alloc; 0; size]?),
        fixed: Bytes::new(alloc),
        held: Bytes::new(alloc),
        zeros: 0,
        symbols: SymbolParts::new(alloc),
        relocs: RelocParts::new(alloc),
    };
    write_object(alloc, &parts)
}

// The image of these objects.
fn linked(alloc: Global, files: &[Vec<u8>]) -> Result<Result<ImageParts, LinkFault>, Fail>
    ensures { IfOk result (λ linked. IfOk linked WellFormedImage) }
{
    if files.len() > 4096 {
        return Err("too many objects".into());
    }
    let mut inputs = Inputs::new(alloc);
    for file in files {
        if file.len() > 100_000_000 {
            return Err("a long object".into());
        }
        inputs.add(read_object(alloc, file.as_slice())?)?;
    }
    Ok(link(alloc, &inputs))
}

#[test]
fn the_runtime_has_one_file(rt: HostRuntime) -> Result<(), Fail> {
    let file = write_object(rt.alloc(), &runtime_parts(rt.alloc())?)?;
    assert_eq!(rt; file.len(), 804);
    let rows: [(usize, &[u8]); 6] = [
        (32, b"\x6c\x01\0\0"),
        (64, b"\xe8\xfc\xff\xff\xff\x89\xc3"),
        (160, b"\x01\0\0\0\x02\x02\0\0"),
        (
            168,
            b"\0\0\0\0\0\0\0\0\0\0\0\0\0\0\0\0\x01\0\0\0\0\0\0\0\x0e\0\0\0\x12\0\x01\0",
        ),
        (248, b"\0_start\0main\0getbyte\0putbyte\0"),
        (277, b"\0.text\0.rodata\0"),
    ];
    for (place, bytes) in rows {
        let rest = file.as_slice().get(place..).expect(&rt, "a place");
        assert!(rt; rest.starts_with(bytes), "{place}");
    }
    let mut files = Vec::new(rt.alloc());
    files.push(file)?;
    let start = LinkFault::Doubled {
        object: 1,
        symbol: 1,
    };
    assert_eq!(rt; linked(rt.alloc(), files.as_slice())?.err(), Some(start));
    Ok(())
}

#[test]
fn words_are_relocated(rt: HostRuntime) -> Result<(), Fail> {
    // The relocations of A stand at 88: the type of the first is the byte at 92. R_386_32 stores S + A.
    let rows: [(&[Patch], [u8; 4]); 2] = [
        (&[], [0x1b, 0, 0, 0]),
        (&[(0, 92, 1)], [0x1c, 0x90, 0x04, 0x08]),
    ];
    let by_hand = CODE.as_slice();
    for (patches, word) in rows {
        let mut files = compiled(rt.alloc(), &[A, B])?;
        patch(files.as_mut_slice(), patches)?;
        let image = linked(rt.alloc(), files.as_slice())?
            .ok()
            .expect(&rt, "an image");
        assert_eq!(rt; image.entry, 0x0804_9040);
        assert!(rt; image.segments.len() == 1);
        let segment = image.segments.at(0);
        assert_eq!(rt;
            [segment.start, segment.flags, segment.size],
            [0x0804_9000, 5, 158]
        );
        let code = segment.bytes.as_slice();
        assert_eq!(rt; code.len(), 158);
        assert_eq!(rt; code[0], 0xe8);
        assert_eq!(rt; &code[1..5], word.as_slice());
        assert_eq!(rt; &code[5..], &by_hand[5..]);
    }
    Ok(())
}

#[test]
fn stated_sizes_agree(rt: HostRuntime) -> Result<(), Fail> {
    // The symbols of A stand at 104 and those of B at 92, both with f as entry 1: its size is at 8, its type at 12.
    let rows: [([Patch; 2], Option<LinkFault>); 3] = [
        (
            [(0, 128, 20), (1, 120, 0x11)],
            Some(LinkFault::Sized {
                object: 0,
                symbol: 1,
                stated: 20,
                defined: 18,
            }),
        ),
        ([(0, 128, 18), (1, 120, 0x11)], None),
        ([(0, 128, 20), (1, 120, 0x12)], None),
    ];
    for (patches, want) in rows {
        let mut files = compiled(rt.alloc(), &[A, B])?;
        patch(files.as_mut_slice(), &patches)?;
        let image = linked(rt.alloc(), files.as_slice())?;
        assert_eq!(rt; image.err(), want);
    }
    Ok(())
}

#[test]
fn texts_end_at_the_last_address(rt: HostRuntime) -> Result<(), Fail> {
    // From 0x08049000 up to 0x09048000 there is place for 16,773,120 bytes. Behind the zeros, from the next multiple of 16
    // on, 16 bytes are the place of main, and 94 those of the runtime.
    let rows = [
        (16_773_008, None),
        (16_773_009, Some(LinkFault::Range { end: 0x0904_9000 })),
    ];
    for (size, want) in rows {
        let mut files = vec![in rt.alloc(); zeros_object(rt.alloc(), size)?]?;
        files.extend(compiled(rt.alloc(), &["int main(void) { return 7; }"])?)?;
        let image = linked(rt.alloc(), files.as_slice())?;
        assert_eq!(rt; image.err(), want, "{size}");
    }
    Ok(())
}
