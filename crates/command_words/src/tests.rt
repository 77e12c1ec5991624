// Words as people write them, at the edges of each rule. What is read of them the contract of `read` says.
use crate::read;
use std::alloc::{AllocError, Global};
use std::test::Fail;

fn words(alloc: Global, line: &str) -> Result<Vec<String>, AllocError> {
    let mut words = Vec::new(alloc);
    for word in line.split(' ') {
        words.push(String::from_str(alloc, word)?)?;
    }
    Ok(words)
}

// Lines, and whether a command fits them.
const LINES: [(&str, bool); 22] = [
    ("compile a.c a.o", true),
    ("compile a.c a.c", false),
    ("compile .c a.o", false),
    ("link out a.o b.o", true),
    ("link a.o a.o", false),
    ("link out", false),
    ("run 4294967295 out", true),
    ("run 4294967296 out", false),
    ("run 007 out", false),
    ("run +1 out", false),
    ("run 10 ", false),
    ("show a.c", true),
    ("show a.o", false),
    ("show a.c b.c", false),
    ("exec 0 out b.c a.b.c", true),
    ("exec 10 a.o a.c", false),
    ("exec 10 out a.c a.c", false),
    ("mean 0 b.c a.b.c", true),
    ("mean 10 a.c b.o", false),
    ("mean 10", false),
    ("Run 10 out", false),
    ("", false),
];

#[test]
fn lines_are_read(rt: HostRuntime) -> Result<(), Fail> {
    for (line, fits) in LINES {
        let words = words(rt.alloc(), line)?;
        let order = read(rt.alloc(), words.as_slice())?;
        assert_eq!(rt; order.is_some(), fits, "{line}");
    }
    Ok(())
}
