// Each kind of turn, by programs whose turns are counted by hand.
use crate::running::{come_to, sink, source};
use mean_source::MeanEnd;
use std::alloc::{AllocError, Global};

// What a program of one text without input comes to.
fn alone(alloc: Global, text: &str, turns: u32) -> Result<Option<MeanEnd>, AllocError> {
    let mut input = source(alloc, b"")?;
    let mut output = sink(alloc);
    Ok(come_to(alloc, &[text], turns, &mut input, &mut output)?.ok())
}

// Programs that end with 3 after so many turns, and run on before.
#[test]
fn statements_take_their_turns(rt: HostRuntime) -> Result<(), AllocError> {
    let alloc = rt.alloc();
    let table: [(&str, u32); 19] = [
        ("int main(void) { return 3; }", 1),
        ("int main(void) { ; return 3; }", 2),
        ("int main(void) { { return 3; } }", 2),
        ("int main(void) { { } return 3; }", 2),
        ("int main(void) { register int n; n = 3; return n; }", 2),
        ("int main(void) { int n = 3; return n; }", 2),
        ("int main(void) { if (1) { return 3; } return 4; }", 2),
        ("int main(void) { if (0) { return 4; } return 3; }", 2),
        (
            "int main(void) { if (0) { return 4; } else { return 3; } }",
            2,
        ),
        (
            "int main(void) { if (0) { return 4; } else if (1) { ; return 3; } else { return 5; } }",
            3,
        ),
        (
            "int main(void) { register int n; n = 2; while (n) { n = n - 1; } return 3; }",
            7,
        ),
        (
            "int main(void) { register int n; n = 2; do { n = n - 1; } while (n); return 3; }",
            7,
        ),
        (
            "int main(void) { register int n; for (n = 0; n < 2; n = n + 1) { ; } return 3; }",
            12,
        ),
        ("int main(void) { for (;;) { return 3; } }", 3),
        ("int main(void) { while (1) { break; ; } return 3; }", 3),
        (
            "int main(void) { register int n; n = 0; while (n < 1) { n = 1; continue; n = 5; } return n + 2; }",
            6,
        ),
        (
            "int main(void) { register int n; for (n = 0; n < 1; n = n + 3) { continue; } return n; }",
            8,
        ),
        (
            "int main(void) { register int n; n = 0; do { n = n + 1; if (n == 3) { break; } } while (1); return n; }",
            12,
        ),
        (
            "int main(void) { for (;;) { while (1) { break; } return 3; } }",
            5,
        ),
    ];
    for (text, turns) in table {
        assert_eq!(rt;
            alone(alloc, text, turns)?,
            Some(MeanEnd::Ended(3)),
            "{text}"
        );
        assert_eq!(rt;
            alone(alloc, text, turns - 1)?,
            Some(MeanEnd::Spent),
            "{text}"
        );
        assert_eq!(rt;
            alone(alloc, text, turns + 9)?,
            Some(MeanEnd::Ended(3)),
            "{text}"
        );
    }
    Ok(())
}

// Calls and returns: each program ends with 3 after so many turns, and runs on before.
#[test]
fn calls_take_their_turns(rt: HostRuntime) -> Result<(), AllocError> {
    let alloc = rt.alloc();
    let table: [(&str, u32); 5] = [
        (
            "int f(int n) { return n + 1; } int main(void) { register int r; r = f(2); return r; }",
            3,
        ),
        (
            "int f(int n) { return n + 1; } int main(void) { int r = 3; f(2); return r; }",
            4,
        ),
        ("void f(void) { } int main(void) { f(); return 3; }", 3),
        (
            "void f(void) { return; } int main(void) { f(); return 3; }",
            3,
        ),
        (
            "int f(int n) { register int r; if (n == 0) { return 3; } r = f(n - 1); return r; } int main(void) { register int r; r = f(2); return r; }",
            10,
        ),
    ];
    for (text, turns) in table {
        assert_eq!(rt;
            alone(alloc, text, turns)?,
            Some(MeanEnd::Ended(3)),
            "{text}"
        );
        assert_eq!(rt;
            alone(alloc, text, turns - 1)?,
            Some(MeanEnd::Spent),
            "{text}"
        );
    }
    Ok(())
}

// Programs that go wrong after so many turns, and run on before.
#[test]
fn programs_go_wrong_at_their_turn(rt: HostRuntime) -> Result<(), AllocError> {
    let alloc = rt.alloc();
    let table: [(&str, u32); 13] = [
        ("int main(void) { int n; return n; }", 1),
        ("int main(void) { register int n; ; return n; }", 2),
        ("int main(void) { return 1 / 0; }", 1),
        ("int main(void) { return 1 << 32; }", 1),
        ("int main(void) { return (-2147483647 - 1) / -1; }", 1),
        ("int main(void) { register int *p; p = 0; return *p; }", 2),
        (
            "const int k = 1; int main(void) { register int *p; p = (int *)&k; *p = 2; return 0; }",
            2,
        ),
        (
            "int t[2]; int main(void) { register int *p; p = t + 2; return *p; }",
            2,
        ),
        (
            "int t[2]; int main(void) { register int *p; p = t + 3; return p == t; }",
            2,
        ),
        (
            "int f(void) { } int main(void) { register int r; r = f(); return r; }",
            2,
        ),
        (
            "int *g; void f(void) { int n; g = &n; } int main(void) { f(); *g = 1; return 0; }",
            4,
        ),
        ("int main(void) { while (1 % 0) { } return 0; }", 1),
        (
            "int main(void) { if (0) { } else if (1 / 0) { } return 0; }",
            1,
        ),
    ];
    for (text, turns) in table {
        let wrong = Some(MeanEnd::Wrong { turn: turns });
        assert_eq!(rt; alone(alloc, text, turns)?, wrong, "{text}");
        assert_eq!(rt; alone(alloc, text, turns + 9)?, wrong, "{text}");
        assert_eq!(rt;
            alone(alloc, text, turns - 1)?,
            Some(MeanEnd::Spent),
            "{text}"
        );
    }
    Ok(())
}
