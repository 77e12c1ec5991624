// Commands over files in memory: that the calls succeed, and what they answer.
ghost use Rattle.std.specs.Prelude.{◌^◌, ◌<◌, ◌≤◌, length, IfOk};
ghost use Rattle.elf_file.specs.Image.{WellFormedImage};

use cc_base::{Bytes, Calls, Files, MemFiles, MemSink, MemSource};
use command_words::read;
use commands::{Answer, Status, line, perform};
use elf_file::{ImageParts, SegmentPart, SegmentParts, write_image};
use std::alloc::{AllocError, Global};
use std::test::Fail;

const A: &[u8] = b"int f(void); int main(void) { f(); putbyte(66); return 3; }";

const B: &[u8] = b"int f(void) { putbyte(65); return 0; }";

// Files a.c, b.c and c.c, where the last has the text of the second.
fn units(alloc: Global) -> Result<MemFiles, Fail> {
    let mut files = MemFiles::new(alloc, Calls::new(alloc));
    files.put(alloc, "a.c", A)?;
    files.put(alloc, "b.c", B)?;
    files.put(alloc, "c.c", B)?;
    Ok(files)
}

fn names(alloc: Global, line: &str) -> Result<Vec<String>, AllocError> {
    let mut names = Vec::new(alloc);
    for name in line.split(' ') {
        names.push(String::from_str(alloc, name)?)?;
    }
    Ok(names)
}

// What a line of words comes to.
fn answer_of(
    alloc: Global,
    line: &str,
    files: &mut MemFiles,
    output: &mut MemSink,
) -> Result<Answer, Fail> {
    let words = names(alloc, line)?;
    let mut input = MemSource::new(Bytes::new(alloc), Calls::new(alloc));
    let Some(order) = read(alloc, words.as_slice())? else {
        return Ok(Answer::Words);
    };
    Ok(perform(alloc, &order, files, &mut input, output))
}

#[test]
fn units_are_compiled_and_linked_later(rt: HostRuntime) -> Result<(), Fail> {
    let alloc = rt.alloc();
    let mut files = units(alloc)?;
    let mut output = MemSink::new(alloc, Calls::new(alloc));
    let rows: [(&str, Status, &str); 12] = [
        ("compile a.c a.o", Status::Done, "object 708\n"),
        ("compile b.c b.o", Status::Done, "object 676\n"),
        ("compile c.c c.o", Status::Done, "object 676\n"),
        ("link out a.o b.o", Status::Done, "image 4254\n"),
        ("run 33 out", Status::Done, "exit 3\n"),
        ("run 32 out", Status::Spent, "spent\n"),
        ("link more a.o", Status::Unresolved, "unresolved f a.o\n"),
        (
            "link more b.o",
            Status::Unresolved,
            "unresolved main runtime\n",
        ),
        ("link more a.o b.o c.o", Status::Doubled, "doubled f c.o\n"),
        ("link more a.o b.c", Status::Object, "b.c: object form\n"),
        ("run 33 a.o", Status::Image, "a.o: image form\n"),
        ("run 33 more", Status::Missing, "missing more\n"),
    ];
    for (words, status, report) in rows {
        let answer = answer_of(alloc, words, &mut files, &mut output)?;
        assert_eq!(rt; answer.status(), status, "{words}");
        assert_eq!(rt;
            line(alloc, &answer)?.as_slice(),
            report.as_bytes(),
            "{words}"
        );
    }
    assert_eq!(rt; output.bytes(), b"ABAB".as_slice());
    Ok(())
}

// Texts that are shown, and texts that are no unit's or pass a limit.
#[test]
fn texts_are_parsed(rt: HostRuntime) -> Result<(), Fail> {
    let alloc = rt.alloc();
    let rows: [(&[u8], &str, Status, &str, &[u8]); 12] = [
        (
            b"int main(){return 7;}",
            "show t.c",
            Status::Done,
            "",
            b"int main ( void ) { return 7 ; }\n",
        ),
        (b"", "show t.c", Status::Done, "", b"\n"),
        (
            b"int main(void) { return 1 + ; }",
            "show t.c",
            Status::Syntax,
            "t.c: syntax token 28\n",
            b"",
        ),
        (
            b"int main(void) { return 1 + ; }",
            "compile t.c t.o",
            Status::Syntax,
            "t.c: syntax token 28\n",
            b"",
        ),
        (
            b"int main(void) {",
            "exec 9 out t.c",
            Status::Syntax,
            "t.c: syntax token 16\n",
            b"",
        ),
        (
            b"int x = 4294967296u;",
            "compile t.c t.o",
            Status::Syntax,
            "t.c: syntax literal 8\n",
            b"",
        ),
        (
            b"int x = 1 @ 2;",
            "compile t.c t.o",
            Status::Syntax,
            "t.c: syntax char 10\n",
            b"",
        ),
        (
            b"int x = 1;",
            "compile t.c t.o",
            Status::Limit,
            "t.c: limit form\n",
            b"",
        ),
        (
            b"int main(void) { return x; }",
            "compile t.c t.o",
            Status::Typing,
            "t.c: typing unknown 24\n",
            b"",
        ),
        (
            b"int main(void) { return x; }",
            "show t.c",
            Status::Done,
            "",
            b"int main ( void ) { return x ; }\n",
        ),
        (
            b"extern char t[8388609];",
            "exec 9 out t.c",
            Status::Limit,
            "t.c: limit size 12\n",
            b"",
        ),
        (b"int", "show u.c", Status::Missing, "missing u.c\n", b""),
    ];
    for (text, words, status, report, bytes) in rows {
        let mut files = MemFiles::new(alloc, Calls::new(alloc));
        files.put(alloc, "t.c", text)?;
        let mut output = MemSink::new(alloc, Calls::new(alloc));
        let answer = answer_of(alloc, words, &mut files, &mut output)?;
        assert_eq!(rt; answer.status(), status, "{words}");
        assert_eq!(rt;
            line(alloc, &answer)?.as_slice(),
            report.as_bytes(),
            "{words}"
        );
        assert_eq!(rt; output.bytes(), bytes, "{words}");
    }
    Ok(())
}

// An image of this code at 0x08049000, with zeros behind it.
fn image_of(alloc: Global, code: &[u8]) -> Result<ImageParts, AllocError>
    requires { length code.now ≤ 20 }
    ensures { IfOk result WellFormedImage }
{
    let mut segments = SegmentParts::new(alloc);
    segments.push(SegmentPart {
        start: 0x0804_9000,
        flags: 5,
        size: 20,
        bytes: Bytes::from_slice(alloc, code)?,
    })?;
    Ok(ImageParts {
        entry: 0x0804_9000,
        segments,
    })
}

#[test]
fn an_image_runs_until_it_is_stuck(rt: HostRuntime) -> Result<(), Fail> {
    let alloc = rt.alloc();
    let rows: [(&[u8], &str, Status, &str); 8] = [
        // call; mov ebx,eax; mov eax,1; int 0x80; and there mov eax,7; ret
        (
            b"\xe8\x09\0\0\0\x89\xc3\xb8\x01\0\0\0\xcd\x80\xb8\x07\0\0\0\xc3",
            "run 6 image",
            Status::Done,
            "exit 7\n",
        ),
        (b"\xeb\xfe", "run 4000000 image", Status::Spent, "spent\n"),
        // mov [0x08049000],1
        (
            b"\xc7\x05\0\x90\x04\x08\x01\0\0\0",
            "run 9 image",
            Status::Stuck,
            "stuck 08049000 access 08049000\n",
        ),
        // imul eax,eax; jl
        (
            b"\x0f\xaf\xc0\x0f\x8c\0\0\0\0",
            "run 9 image",
            Status::Stuck,
            "stuck 08049003 flags\n",
        ),
        (
            b"\xf7\xf1",
            "run 9 image",
            Status::Stuck,
            "stuck 08049000 divide\n",
        ),
        (
            b"\xf7\xc0",
            "run 9 image",
            Status::Stuck,
            "stuck 08049000 decode\n",
        ),
        // jmp to the end of the code
        (
            b"\xeb\x12",
            "run 9 image",
            Status::Stuck,
            "stuck 08049014 fetch\n",
        ),
        (
            b"\xcd\x80",
            "run 9 image",
            Status::Stuck,
            "stuck 08049000 system\n",
        ),
    ];
    for (code, words, status, report) in rows {
        assert!(rt; code.len() <= 20);
        let file = write_image(alloc, &image_of(alloc, code)?)?;
        let mut files = MemFiles::new(alloc, Calls::new(alloc));
        files.put(alloc, "image", file.as_slice())?;
        let mut output = MemSink::new(alloc, Calls::new(alloc));
        let answer = answer_of(alloc, words, &mut files, &mut output)?;
        assert_eq!(rt; answer.status(), status, "{code:?}");
        assert_eq!(rt;
            line(alloc, &answer)?.as_slice(),
            report.as_bytes(),
            "{code:?}"
        );
    }
    Ok(())
}
