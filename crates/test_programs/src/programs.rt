// The programs.
use crate::texts::{
    CALCULATOR, COPY, COUNTED, COUNTS, DEEP_RECURSION, GREET, GREETS, LINE, LOOPS, NESTED,
    OPERATORS, PLACE_FIRST, PRINT, QUEENS, RECURSION, RETURNED_CHAR, STACK, STEPPED, STORED_CHARS,
    STRUCTS, TAIL, TENS, WORDS,
};
use cc_base::Outcome;

/// A program, and what it comes to by hand.
pub struct Program {
    /// The texts of its units.
    pub texts: &'static [&'static str],
    pub input: &'static [u8],
    pub emitted: &'static [u8],
    pub outcome: Outcome,
}

/// Programs of one to four units.
pub static PROGRAMS: [Program; 35] = [
    Program {
        texts: &["int main(void) { return 7; }"],
        input: b"",
        emitted: b"",
        outcome: Outcome::Ended(7),
    },
    Program {
        texts: &["int main(void) { return 256; }"],
        input: b"",
        emitted: b"",
        outcome: Outcome::Ended(0),
    },
    Program {
        texts: &["int main(void) { return -1; }"],
        input: b"",
        emitted: b"",
        outcome: Outcome::Ended(255),
    },
    Program {
        texts: &["int main() { }"],
        input: b"",
        emitted: b"",
        outcome: Outcome::Ended(0),
    },
    Program {
        texts: &["int main(void) { putbyte(72); putbyte(361); return 0; }"],
        input: b"",
        emitted: b"Hi",
        outcome: Outcome::Ended(0),
    },
    Program {
        texts: &[
            "int main(void) { register int x; x = 6; if (x == 7) { return 1; } return x * 7; }",
        ],
        input: b"",
        emitted: b"",
        outcome: Outcome::Ended(42),
    },
    Program {
        texts: &["int main(void) { register int *p; p = 0; return p != 0 && *p == 3; }"],
        input: b"",
        emitted: b"",
        outcome: Outcome::Ended(0),
    },
    Program {
        texts: &[
            "int main(void) { register int *p; p = 0; if (p == 0 || *p == 3) { return 9; } return 1; }",
        ],
        input: b"",
        emitted: b"",
        outcome: Outcome::Ended(9),
    },
    Program {
        texts: &["void f(void) { putbyte(65); } int main(void) { f(); return 3; }"],
        input: b"",
        emitted: b"A",
        outcome: Outcome::Ended(3),
    },
    Program {
        texts: &[
            "int g = 2; int f(int a, int b) { int c = 3; return a * 100 + b * 10 + c; } int main(void) { g = f(g, g && 1); return g; }",
        ],
        input: b"",
        emitted: b"",
        outcome: Outcome::Ended(213),
    },
    Program {
        texts: &[
            "int main(void) { register int n; for (n = 0; n < 1; n = n + 3) { continue; } return n; }",
        ],
        input: b"",
        emitted: b"",
        outcome: Outcome::Ended(3),
    },
    Program {
        texts: &["int main(void) { for (;;) { while (1) { break; } return 3; } }"],
        input: b"",
        emitted: b"",
        outcome: Outcome::Ended(3),
    },
    Program {
        texts: &[STORED_CHARS],
        input: b"",
        emitted: b"",
        outcome: Outcome::Ended(1),
    },
    Program {
        texts: &[WORDS],
        input: b"",
        emitted: b"",
        outcome: Outcome::Ended(1),
    },
    Program {
        texts: &[STRUCTS],
        input: b"",
        emitted: b"",
        outcome: Outcome::Ended(12),
    },
    Program {
        texts: &[RECURSION],
        input: b"",
        emitted: b"",
        outcome: Outcome::Ended(0),
    },
    Program {
        texts: &[DEEP_RECURSION],
        input: b"",
        emitted: b"",
        outcome: Outcome::Deep,
    },
    Program {
        texts: &["int main(void) { char big[1048576]; return 0; }"],
        input: b"",
        emitted: b"",
        outcome: Outcome::Deep,
    },
    Program {
        texts: &[PLACE_FIRST],
        input: b"",
        emitted: b"",
        outcome: Outcome::Ended(50),
    },
    Program {
        texts: &[RETURNED_CHAR],
        input: b"",
        emitted: b"",
        outcome: Outcome::Ended(1),
    },
    Program {
        texts: &[NESTED],
        input: b"",
        emitted: b"",
        outcome: Outcome::Ended(5),
    },
    Program {
        texts: &[STEPPED],
        input: b"",
        emitted: b"",
        outcome: Outcome::Ended(20),
    },
    Program {
        texts: &[LOOPS],
        input: b"",
        emitted: b"",
        outcome: Outcome::Ended(18),
    },
    Program {
        texts: &[COPY],
        input: b"",
        emitted: b"",
        outcome: Outcome::Ended(1),
    },
    Program {
        texts: &[COPY],
        input: b"\xff",
        emitted: b"\xff",
        outcome: Outcome::Ended(1),
    },
    Program {
        texts: &[COPY],
        input: b"several bytes",
        emitted: b"several bytes",
        outcome: Outcome::Ended(1),
    },
    Program {
        texts: &[COUNTS, COUNTED],
        input: b"",
        emitted: b"",
        outcome: Outcome::Ended(43),
    },
    Program {
        texts: &[COUNTED, COUNTS],
        input: b"",
        emitted: b"",
        outcome: Outcome::Ended(43),
    },
    Program {
        texts: &[TAIL, TENS],
        input: b"",
        emitted: b"",
        outcome: Outcome::Ended(30),
    },
    Program {
        texts: &[TENS, TAIL],
        input: b"",
        emitted: b"",
        outcome: Outcome::Ended(30),
    },
    Program {
        texts: &[GREETS, GREET],
        input: b"",
        emitted: b"Hi!Hi!\n",
        outcome: Outcome::Ended(3),
    },
    Program {
        texts: &[
            "int x; int get(void) { return x; }",
            "extern int x; int get(void); int main(void) { register int r; x = 41; r = get(); return r + 1; }",
        ],
        input: b"",
        emitted: b"",
        outcome: Outcome::Ended(42),
    },
    Program {
        texts: &[STACK, OPERATORS, PRINT, CALCULATOR],
        input: b"12 3 4 * +\n2 7 -\n1 0 /\n",
        emitted: b"24\n-5\nerror\n",
        outcome: Outcome::Ended(0),
    },
    Program {
        texts: &[CALCULATOR, PRINT, OPERATORS, STACK],
        input: b"12 3 4 * +\n2 7 -\n1 0 /\n",
        emitted: b"24\n-5\nerror\n",
        outcome: Outcome::Ended(0),
    },
    Program {
        texts: &[QUEENS, LINE],
        input: b"",
        emitted: b"4\n",
        outcome: Outcome::Ended(4),
    },
];
