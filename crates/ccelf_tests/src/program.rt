// The whole program, over files, an input and an output in memory.
ghost use Rattle.std.specs.Prelude.{◌<◌};

use cc_base::{Bytes, Calls, Files, GetFault, MemFiles, MemSink, MemSource};
use ccelf_build::{Status, ccelf};
use std::alloc::{AllocError, Global};
use std::test::Fail;

/// Which call of each object fails, counted from 1, and 0 where none does. The first call of the files stores a.c.
#[derive(Clone, Copy)]
struct Fails {
    files: u64,
    output: u64,
    report: u64,
}

const NONE: Fails = Fails {
    files: 0,
    output: 0,
    report: 0,
};

/// What is left when the program has ended.
#[derive(Drop)]
struct Ended {
    status: Status,
    files: MemFiles,
    output: MemSink,
    report: MemSink,
}

fn words(alloc: Global, all: &[&str]) -> Result<Vec<String>, AllocError> {
    let mut words = Vec::new(alloc);
    for word in all {
        words.push(String::from_str(alloc, word)?)?;
    }
    Ok(words)
}

fn calls(alloc: Global, number: u64) -> Result<Calls, AllocError> {
    Ok(Calls::from_vec(Vec::from_slice(alloc, &[number])?))
}

/// Runs the program with these words over these files.
fn end_over(
    alloc: Global,
    words: &[String],
    mut files: MemFiles,
    fails: Fails,
) -> Result<Ended, Fail> {
    let mut input = MemSource::new(Bytes::new(alloc), calls(alloc, 0)?);
    let mut output = MemSink::new(alloc, calls(alloc, fails.output)?);
    let mut report = MemSink::new(alloc, calls(alloc, fails.report)?);
    let status = ccelf(
        alloc,
        words,
        &mut files,
        &mut input,
        &mut output,
        &mut report,
    );
    Ok(Ended {
        status,
        files,
        output,
        report,
    })
}

/// Runs the program with these words, where a.c holds this text.
fn end_of(alloc: Global, all: &[&str], text: &[u8], fails: Fails) -> Result<Ended, Fail> {
    let mut files = MemFiles::new(alloc, calls(alloc, fails.files)?);
    files.put(alloc, "a.c", text)?;
    let words = words(alloc, all)?;
    end_over(alloc, words.as_slice(), files, fails)
}

const EXEC: [&str; 4] = ["exec", "1000", "out", "a.c"];

const H_AND_7: &str = "int main(void) { putbyte(72); return 7; }";

#[test]
fn units_run(rt: HostRuntime) -> Result<(), Fail> {
    // The start calls main, which returns to three more instructions; a byte takes 12.
    let rows: [(&str, &str, &str, &str, Status); 9] = [
        (
            "int main(void) { return 7; }",
            "1000",
            "",
            "exit 7\n",
            Status::Done,
        ),
        (
            "int main(void) { putbyte(72); putbyte(361); return 0; }",
            "1000",
            "Hi",
            "exit 0\n",
            Status::Done,
        ),
        (
            "int main(void) { return 256; }",
            "1000",
            "",
            "exit 0\n",
            Status::Done,
        ),
        (H_AND_7, "18", "H", "exit 7\n", Status::Done),
        (H_AND_7, "17", "H", "spent\n", Status::Spent),
        (H_AND_7, "0", "", "spent\n", Status::Spent),
        (
            "int main(void) { return -1; }",
            "1000",
            "",
            "a.c: limit form\n",
            Status::Limit,
        ),
        (
            "int main(void) { return 1 + ; }",
            "1000",
            "",
            "a.c: syntax token 28\n",
            Status::Syntax,
        ),
        (
            "int f(void) { return 7; }",
            "1000",
            "",
            "unresolved main runtime\n",
            Status::Unresolved,
        ),
    ];
    for (text, steps, output, report, status) in rows {
        let ended = end_of(
            rt.alloc(),
            &["exec", steps, "out", "a.c"],
            text.as_bytes(),
            NONE,
        )?;
        assert_eq!(rt; ended.status, status, "{text}");
        assert_eq!(rt; ended.output.bytes(), output.as_bytes(), "{text}");
        assert_eq!(rt; ended.report.bytes(), report.as_bytes(), "{text}");
    }
    Ok(())
}

#[test]
fn words_are_refused(rt: HostRuntime) -> Result<(), Fail> {
    let rows: [(&[&str], &str, Status); 9] = [
        (&[], "words\n", Status::Words),
        (&["exec", "10", "a.o", "a.c"], "words\n", Status::Words),
        (&["exec", "10", "a.c", "a.c"], "words\n", Status::Words),
        (&["exec", "007", "out", "a.c"], "words\n", Status::Words),
        (
            &["exec", "4294967296", "out", "a.c"],
            "words\n",
            Status::Words,
        ),
        (&["exec", "10", "out", ".c"], "words\n", Status::Words),
        (&["exec", "10", "", "a.c"], "words\n", Status::Words),
        (&["run", "007", "out"], "words\n", Status::Words),
        (
            &["exec", "10", "out", "b.c"],
            "missing b.c\n",
            Status::Missing,
        ),
    ];
    for (all, report, status) in rows {
        let ended = end_of(rt.alloc(), all, H_AND_7.as_bytes(), NONE)?;
        assert_eq!(rt; ended.status, status, "{report}");
        assert_eq!(rt; ended.output.bytes(), b"".as_slice(), "{report}");
        assert_eq!(rt; ended.report.bytes(), report.as_bytes(), "{report}");
    }
    Ok(())
}

#[test]
fn faults_end_the_command(rt: HostRuntime) -> Result<(), Fail> {
    let text = "int main(void) { putbyte(65); putbyte(66); putbyte(67); return 0; }";
    let rows: [(&str, Fails, &str, &str, Status); 6] = [
        (
            "get",
            Fails { files: 2, ..NONE },
            "",
            "read\n",
            Status::ReadFault,
        ),
        (
            "put the object",
            Fails { files: 3, ..NONE },
            "",
            "",
            Status::WriteFault,
        ),
        (
            "put the image",
            Fails { files: 4, ..NONE },
            "",
            "",
            Status::WriteFault,
        ),
        (
            "third give",
            Fails { output: 3, ..NONE },
            "AB",
            "",
            Status::WriteFault,
        ),
        (
            "flush",
            Fails { output: 4, ..NONE },
            "ABC",
            "",
            Status::WriteFault,
        ),
        (
            "report",
            Fails { report: 1, ..NONE },
            "ABC",
            "",
            Status::WriteFault,
        ),
    ];
    for (what, fails, output, report, status) in rows {
        let ended = end_of(rt.alloc(), &EXEC, text.as_bytes(), fails)?;
        assert_eq!(rt; ended.status, status, "{what}");
        assert_eq!(rt; ended.output.bytes(), output.as_bytes(), "{what}");
        assert_eq!(rt; ended.report.bytes(), report.as_bytes(), "{what}");
    }
    Ok(())
}

#[test]
fn texts_are_shown(rt: HostRuntime) -> Result<(), Fail> {
    let rows: [(&str, Fails, &str, &str, Status); 5] = [
        (
            "int main(){return 7;}",
            NONE,
            "int main ( void ) { return 7 ; }\n",
            "",
            Status::Done,
        ),
        (
            "int x;",
            Fails { output: 4, ..NONE },
            "int",
            "",
            Status::WriteFault,
        ),
        (
            "int x;",
            Fails { files: 2, ..NONE },
            "",
            "read\n",
            Status::ReadFault,
        ),
        (
            "int x = 1 @ 2;",
            NONE,
            "",
            "a.c: syntax char 10\n",
            Status::Syntax,
        ),
        (
            "int x = 4294967296u;",
            NONE,
            "",
            "a.c: syntax literal 8\n",
            Status::Syntax,
        ),
    ];
    for (text, fails, output, report, status) in rows {
        let ended = end_of(rt.alloc(), &["show", "a.c"], text.as_bytes(), fails)?;
        assert_eq!(rt; ended.status, status, "{text}");
        assert_eq!(rt; ended.output.bytes(), output.as_bytes(), "{text}");
        assert_eq!(rt; ended.report.bytes(), report.as_bytes(), "{text}");
    }
    Ok(())
}

#[test]
fn nothing_is_stored_where_the_first_put_fails(rt: HostRuntime) -> Result<(), Fail> {
    let alloc = rt.alloc();
    let mut ended = end_of(alloc, &EXEC, H_AND_7.as_bytes(), Fails { files: 3, ..NONE })?;
    assert_eq!(rt;
        ended.files.get(alloc, "a.o").err(),
        Some(GetFault::Missing)
    );
    assert_eq!(rt;
        ended.files.get(alloc, "out").err(),
        Some(GetFault::Missing)
    );
    Ok(())
}

/// The commands on two units, one after the other: the objects, the image and the bytes that it emits.
const SEPARATE: [(&str, &str, &str, Status); 9] = [
    ("compile a.c a.o", "", "object 708\n", Status::Done),
    ("compile b.c b.o", "", "object 676\n", Status::Done),
    ("compile b.c c.o", "", "object 676\n", Status::Done),
    (
        "link out a.o b.o c.o",
        "",
        "doubled f c.o\n",
        Status::Doubled,
    ),
    ("link out a.o", "", "unresolved f a.o\n", Status::Unresolved),
    (
        "link out a.o b.o b.c",
        "",
        "b.c: object form\n",
        Status::Object,
    ),
    ("link out a.o b.o", "", "image 4254\n", Status::Done),
    ("run 33 out", "AB", "exit 3\n", Status::Done),
    ("run 32 out", "AB", "spent\n", Status::Spent),
];

#[test]
fn units_are_compiled_alone_and_linked_later(rt: HostRuntime) -> Result<(), Fail> {
    let alloc = rt.alloc();
    let mut files = MemFiles::new(alloc, Calls::new(alloc));
    let a = "int f(void); int main(void) { f(); putbyte(66); return 3; }";
    files.put(alloc, "a.c", a.as_bytes())?;
    files.put(
        alloc,
        "b.c",
        b"int f(void) { putbyte(65); return 0; }".as_slice(),
    )?;
    for (line, output, report, status) in SEPARATE {
        let mut all = Vec::new(alloc);
        for word in line.split(' ') {
            all.push(String::from_str(alloc, word)?)?;
        }
        let ended = end_over(alloc, all.as_slice(), files, NONE)?;
        assert_eq!(rt; ended.status, status, "{line}");
        assert_eq!(rt; ended.output.bytes(), output.as_bytes(), "{line}");
        assert_eq!(rt; ended.report.bytes(), report.as_bytes(), "{line}");
        files = ended.files;
    }
    Ok(())
}

/// The headers of an image of one segment of 20 bytes at 0x08049000, which may be read and executed, by the gABI.
const HEADERS: &[u8; 84] = b"\x7fELF\x01\x01\x01\0\0\0\0\0\0\0\0\0\
    \x02\0\x03\0\x01\0\0\0\x00\x90\x04\x08\x34\0\0\0\0\0\0\0\0\0\0\0\x34\0\x20\0\x01\0\0\0\0\0\0\0\
    \x01\0\0\0\x00\x10\0\0\x00\x90\x04\x08\x00\x90\x04\x08\x14\0\0\0\x14\0\0\0\x05\0\0\0\x00\x10\0\0";

/// call 0x0804900e; mov ebx, eax; mov eax, 1; int 0x80; mov eax, 7; ret
const CODE: &[u8; 20] = b"\xe8\x09\0\0\0\x89\xc3\xb8\x01\0\0\0\xcd\x80\xb8\x07\0\0\0\xc3";

#[test]
fn an_image_by_hand_runs(rt: HostRuntime) -> Result<(), Fail> {
    let alloc = rt.alloc();
    let rows: [(&str, &str, Status); 3] = [
        ("6", "exit 7\n", Status::Done),
        ("5", "spent\n", Status::Spent),
        ("0", "spent\n", Status::Spent),
    ];
    for (steps, report, status) in rows {
        let mut image = Vec::from_slice(alloc, HEADERS)?;
        for _ in HEADERS.len()..4096 {
            image.push(0)?;
        }
        image.extend_from_slice(CODE)?;
        let mut files = MemFiles::new(alloc, Calls::new(alloc));
        files.put(alloc, "out", image.as_slice())?;
        let words = words(alloc, &["run", steps, "out"])?;
        let ended = end_over(alloc, words.as_slice(), files, NONE)?;
        assert_eq!(rt; ended.status, status, "{steps}");
        assert_eq!(rt; ended.report.bytes(), report.as_bytes(), "{steps}");
    }
    Ok(())
}

/// How many units stand in the chain: as many as a command takes.
const CHAIN: u32 = 4096;

// The text of one unit of the chain: its function calls that of the next, and the last emits a byte.
fn link_of_chain(alloc: Global, number: u32) -> Result<String, AllocError>
    requires { number < 4096 }
{
    if number + 1 == CHAIN {
        return format!(in alloc; "int f{number}(void) {{ putbyte(88); return 0; }}");
    }
    let next = number + 1;
    if number == 0 {
        return format!(in alloc; "int f{next}(void); int main(void) {{ f{next}(); return 42; }}");
    }
    format!(in alloc; "int f{next}(void); int f{number}(void) {{ f{next}(); return 0; }}")
}

#[test]
fn a_chain_of_units_ends(rt: HostRuntime) -> Result<(), Fail> {
    let alloc = rt.alloc();
    let mut files = MemFiles::new(alloc, Calls::new(alloc));
    let mut all = words(alloc, &["exec", "100000", "out"])?;
    for number in 0..CHAIN {
        let name = format!(in alloc; "u{number}.c")?;
        let text = link_of_chain(alloc, number)?;
        files.put(alloc, name.as_str(), text.as_bytes())?;
        all.push(name)?;
    }
    let ended = end_over(alloc, all.as_slice(), files, NONE)?;
    assert_eq!(rt; ended.report.bytes(), b"exit 42\n".as_slice());
    assert_eq!(rt; ended.output.bytes(), b"X".as_slice());
    assert_eq!(rt; ended.status, Status::Done);
    Ok(())
}
