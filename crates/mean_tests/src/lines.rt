// The command mean over files in memory: its statuses and lines, and what it emits.
use cc_base::{Bytes, Calls, Files, MemFiles, MemSink, MemSource};
use command_words::read;
use commands::{Answer, Status, line, perform};
use std::alloc::{AllocError, Global};
use std::test::Fail;

// Each unit has the name that the table says.
fn units(alloc: Global) -> Result<MemFiles, Fail> {
    let table: [(&str, &str); 15] = [
        (
            "null.c",
            "int main(void) { register int *p; p = 0; return *p; }",
        ),
        (
            "calls.c",
            "int f(int n) { register int r; if (n == 0) { return 0; } r = f(n - 1); return r; } int main(void) { char pad[180]; register int r; r = f(3234); return r; }",
        ),
        (
            "deep.c",
            "int f(int n) { register int r; if (n == 0) { return 0; } r = f(n - 1); return r; } int main(void) { char pad[180]; register int r; r = f(3235); return r; }",
        ),
        ("big.c", "int main(void) { char big[1048576]; return 0; }"),
        ("loop.c", "int main(void) { while (1) { putbyte(88); } }"),
        ("again.c", "int main(void) { main(); return 0; }"),
        (
            "later.c",
            "int n = 1; int main(void) { while (n < 9) { n = 2*n + 1; } return n; }",
        ),
        (
            "a.c",
            "static int g = 3; int f(void); int main(void) { register int r; r = f(); return r * 10 + g; }",
        ),
        ("b.c", "static int g = 4; int f(void) { return g; }"),
        ("c.c", "int h(void); int f(void) { h(); return 1; }"),
        ("t.c", "extern int t[4]; int main(void) { return t[0]; }"),
        ("u.c", "int t[5] = {1, 2, 3, 4, 5};"),
        ("cut.c", "int main(void) {"),
        ("unknown.c", "int main(void) { return x; }"),
        ("large.c", "static char big[8388609];"),
    ];
    let mut files = MemFiles::new(alloc, Calls::new(alloc));
    for (name, text) in table {
        files.put(alloc, name, text.as_bytes())?;
    }
    Ok(files)
}

fn names(alloc: Global, line: &str) -> Result<Vec<String>, AllocError> {
    let mut names = Vec::new(alloc);
    for name in line.split(' ') {
        names.push(String::from_str(alloc, name)?)?;
    }
    Ok(names)
}

// What a line of words comes to.
fn answer_of(
    alloc: Global,
    line: &str,
    files: &mut MemFiles,
    output: &mut MemSink,
) -> Result<Answer, Fail> {
    let words = names(alloc, line)?;
    let mut input = MemSource::new(Bytes::new(alloc), Calls::new(alloc));
    let Some(order) = read(alloc, words.as_slice())? else {
        return Ok(Answer::Words);
    };
    Ok(perform(alloc, &order, files, &mut input, output))
}

#[test]
fn linked_units_are_run_as_source(rt: HostRuntime) -> Result<(), Fail> {
    let alloc = rt.alloc();
    let mut files = units(alloc)?;
    let rows: [(&str, Status, &str, &[u8]); 21] = [
        ("mean 100 null.c", Status::Wrong, "wrong 2\n", b""),
        ("mean 1 null.c", Status::Spent, "spent\n", b""),
        ("mean 100000 calls.c", Status::Done, "exit 0\n", b""),
        ("mean 100000 deep.c", Status::Deep, "deep 6471\n", b""),
        ("mean 0 big.c", Status::Deep, "deep 0\n", b""),
        ("mean 4 loop.c", Status::Spent, "spent\n", b"XX"),
        ("mean 1000000 again.c", Status::Deep, "deep 8191\n", b""),
        ("mean 8 later.c", Status::Done, "exit 15\n", b""),
        ("mean 7 later.c", Status::Spent, "spent\n", b""),
        ("mean 1000 a.c b.c", Status::Done, "exit 43\n", b""),
        ("mean 1000 b.c a.c", Status::Done, "exit 43\n", b""),
        (
            "mean 1000 a.c",
            Status::Unresolved,
            "unresolved f a.c\n",
            b"",
        ),
        (
            "mean 1000 b.c",
            Status::Unresolved,
            "unresolved main runtime\n",
            b"",
        ),
        (
            "mean 1000 a.c b.c c.c",
            Status::Doubled,
            "doubled f c.c\n",
            b"",
        ),
        (
            "mean 1000 t.c u.c",
            Status::Sized,
            "sized t t.c 16 20\n",
            b"",
        ),
        ("mean 9 a.c d.c", Status::Missing, "missing d.c\n", b""),
        (
            "mean 9 a.c cut.c",
            Status::Syntax,
            "cut.c: syntax token 16\n",
            b"",
        ),
        (
            "mean 9 unknown.c cut.c",
            Status::Typing,
            "unknown.c: typing unknown 24\n",
            b"",
        ),
        (
            "mean 9 large.c",
            Status::Limit,
            "large.c: limit size 12\n",
            b"",
        ),
        ("mean 9 a.c a.c", Status::Words, "words\n", b""),
        ("mean a.c", Status::Words, "words\n", b""),
    ];
    for (words, status, report, emitted) in rows {
        let mut output = MemSink::new(alloc, Calls::new(alloc));
        let answer = answer_of(alloc, words, &mut files, &mut output)?;
        assert_eq!(rt; answer.status(), status, "{words}");
        assert_eq!(rt;
            line(alloc, &answer)?.as_slice(),
            report.as_bytes(),
            "{words}"
        );
        assert_eq!(rt; output.bytes(), emitted, "{words}");
    }
    Ok(())
}

#[test]
fn new_statuses_have_their_numbers(rt: HostRuntime) -> Result<(), Fail> {
    let _ = rt.alloc();
    assert_eq!(rt; Status::Wrong.number(), 18);
    assert_eq!(rt; Status::Deep.number(), 19);
    Ok(())
}
