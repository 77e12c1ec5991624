// Whole programs of one or several units: their ends, what they emit, and what is wrong with their names.
use crate::running::{come_to, sink, source};
use cc_base::{Bytes, Calls, MemSink, MemSource};
use mean_source::{MeanEnd, MeanFault};
use std::alloc::{AllocError, Global};
use std::test::Fail;

const RECURSION: &str =
    "int f(int n) { register int r; if (n == 0) { return 0; } r = f(n - 1); return r; } int main(void) { char pad[180]; register int r; r = f(3234); return r; }";

const DEEP_RECURSION: &str =
    "int f(int n) { register int r; if (n == 0) { return 0; } r = f(n - 1); return r; } int main(void) { char pad[180]; register int r; r = f(3235); return r; }";

const STRUCTS: &str =
    "struct s { char a; int b; char c; }; struct s t[3] = { {1, 100000, 2}, {3, 200000, 4}, {5, 300000, 6} }; int main(void) { register struct s *p; register int n; n = 0; for (p = t; p < t + 3; p = p + 1) { n = n + p->a + p->b + p->c; } if (n == 600021) { return sizeof(struct s); } return 0; }";

// Programs of one text without input: how they stand after so many turns.
#[test]
fn single_units_come_to_their_ends(rt: HostRuntime) -> Result<(), Fail> {
    let alloc = rt.alloc();
    let table: [(&str, u32, MeanEnd); 18] = [
        (
            "int main(void) { char c; register signed char r; unsigned char u; c = 200; r = 200; u = 200; return c == -56 && r == -56 && u == 200; }",
            1000,
            MeanEnd::Ended(1),
        ),
        (
            "int main(void) { return 2147483647 + 1 == -2147483647 - 1 && -7 / 2 == -3 && -7 % 2 == -1 && (unsigned)(1 << 31) == 2147483648u; }",
            1000,
            MeanEnd::Ended(1),
        ),
        (STRUCTS, 1000, MeanEnd::Ended(12)),
        (
            "int main(void) { register int *p; p = 0; return p != 0 && *p == 3; }",
            100,
            MeanEnd::Ended(0),
        ),
        (
            "int main(void) { register int *p; p = 0; return *p; }",
            100,
            MeanEnd::Wrong { turn: 2 },
        ),
        (RECURSION, 100000, MeanEnd::Ended(0)),
        (RECURSION, 9706, MeanEnd::Ended(0)),
        (RECURSION, 9705, MeanEnd::Spent),
        (DEEP_RECURSION, 100000, MeanEnd::Deep { turn: 6471 }),
        (DEEP_RECURSION, 6471, MeanEnd::Deep { turn: 6471 }),
        (DEEP_RECURSION, 6470, MeanEnd::Spent),
        (
            "int main(void) { char big[1048576]; return 0; }",
            0,
            MeanEnd::Deep { turn: 0 },
        ),
        ("int main(void) { return 7; }", 0, MeanEnd::Spent),
        ("int main(void) { return 7; }", 1, MeanEnd::Ended(7)),
        ("int main(void) { return 256; }", 9, MeanEnd::Ended(0)),
        ("int main(void) { return -1; }", 9, MeanEnd::Ended(255)),
        ("int main() { }", 1, MeanEnd::Ended(0)),
        ("int main(void) { while (1) { } }", 4294, MeanEnd::Spent),
    ];
    for (text, turns, end) in table {
        let mut input = source(alloc, b"")?;
        let mut output = sink(alloc);
        let came = come_to(alloc, &[text], turns, &mut input, &mut output)?;
        assert_eq!(rt; came, Ok(end), "{text}");
        assert_eq!(rt; output.bytes(), b"".as_slice(), "{text}");
    }
    Ok(())
}

const COUNTS: &str =
    "static int g = 3; int f(void); int main(void) { register int r; r = f(); return r * 10 + g; }";

const COUNTED: &str = "static int g = 4; int f(void) { return g; }";

const TAIL: &str = "extern int t[5]; int *p = &t[2]; int main(void) { return *p; }";

const TENS: &str = "int t[5] = {10, 20, 30, 40, 50};";

// Programs of several texts without input.
#[test]
fn names_mean_what_other_units_define(rt: HostRuntime) -> Result<(), Fail> {
    let alloc = rt.alloc();
    let table: [(&[&str], Result<MeanEnd, MeanFault>); 13] = [
        (&[COUNTS, COUNTED], Ok(MeanEnd::Ended(43))),
        (&[COUNTED, COUNTS], Ok(MeanEnd::Ended(43))),
        (&[COUNTS], Err(MeanFault::Unresolved { unit: 0, index: 0 })),
        (&[COUNTED], Err(MeanFault::Unresolved { unit: 1, index: 0 })),
        (
            &[
                "int h(void); int f(void) { h(); return 1; } int main(void) { return 0; }",
                "int f(void) { return 2; }",
            ],
            Err(MeanFault::Doubled { unit: 1, index: 0 }),
        ),
        (
            &[
                "extern int t[4]; int main(void) { return t[0]; }",
                "int t[5] = {1, 2, 3, 4, 5};",
            ],
            Err(MeanFault::Sized {
                unit: 0,
                index: 0,
                stated: 16,
                defined: 20,
            }),
        ),
        (
            &[
                "extern int t[]; int main(void) { return t[0]; }",
                "int t[5] = {1, 2, 3, 4, 5};",
            ],
            Ok(MeanEnd::Ended(1)),
        ),
        (&[TAIL, TENS], Ok(MeanEnd::Ended(30))),
        (&[TENS, TAIL], Ok(MeanEnd::Ended(30))),
        (
            &[
                "int f(int n); int main(void) { register int r; r = f(1); return r; }",
                "int f(char *s) { return 1; }",
            ],
            Ok(MeanEnd::Wrong { turn: 1 }),
        ),
        (
            &["int f(void); int main(void) { ; f(); return 0; }", "int f;"],
            Ok(MeanEnd::Wrong { turn: 2 }),
        ),
        (
            &[
                "extern int n; int main(void) { return n; }",
                "int n(void) { return 1; }",
            ],
            Ok(MeanEnd::Wrong { turn: 1 }),
        ),
        (
            &[
                "static int f(void) { return 1; } int g(void); int main(void) { register int a, b; a = f(); b = g(); return a * 10 + b; }",
                "static int f(void) { return 2; } int g(void) { register int r; r = f(); return r; }",
            ],
            Ok(MeanEnd::Ended(12)),
        ),
    ];
    for (texts, end) in table {
        let mut input = source(alloc, b"")?;
        let mut output = sink(alloc);
        assert_eq!(rt; come_to(alloc, texts, 1000, &mut input, &mut output)?, end);
    }
    Ok(())
}

const COPY: &str =
    "int main(void) { register int c; c = getbyte(); while (c != -1) { putbyte(c); c = getbyte(); } c = getbyte(); return c == -1; }";

// Programs of one text: what they emit of an input, and how much of it is left.
#[test]
fn bytes_are_taken_and_emitted(rt: HostRuntime) -> Result<(), Fail> {
    let alloc = rt.alloc();
    let table: [(&str, u32, &[u8], MeanEnd, &[u8], &[u8]); 9] = [
        (
            "int main(void) { putbyte(72); putbyte(361); return 0; }",
            3,
            b"rest",
            MeanEnd::Ended(0),
            b"Hi",
            b"rest",
        ),
        (
            "int main(void) { while (1) { putbyte(88); } }",
            4,
            b"",
            MeanEnd::Spent,
            b"XX",
            b"",
        ),
        (COPY, 1000, b"", MeanEnd::Ended(1), b"", b""),
        (COPY, 1000, b"\xff", MeanEnd::Ended(1), b"\xff", b""),
        (
            COPY,
            1000,
            b"several bytes",
            MeanEnd::Ended(1),
            b"several bytes",
            b"",
        ),
        (COPY, 1, b"abc", MeanEnd::Spent, b"", b"bc"),
        (COPY, 4, b"abc", MeanEnd::Spent, b"a", b"c"),
        (
            "int main(void) { char c; c = getbyte(); return c == -56; }",
            2,
            b"\xc8",
            MeanEnd::Ended(1),
            b"",
            b"",
        ),
        (
            "int main(void) { register int *p; p = 0; *p = getbyte(); return 0; }",
            9,
            b"abc",
            MeanEnd::Wrong { turn: 2 },
            b"",
            b"abc",
        ),
    ];
    for (text, turns, bytes, end, emitted, left) in table {
        let mut input = source(alloc, bytes)?;
        let mut output = sink(alloc);
        let came = come_to(alloc, &[text], turns, &mut input, &mut output)?;
        assert_eq!(rt; came, Ok(end), "{text}");
        assert_eq!(rt; output.bytes(), emitted, "{text}");
        assert_eq!(rt; input.rest(), left, "{text}");
    }
    Ok(())
}

// The call of this number fails.
fn failing(alloc: Global, call: u64) -> Result<Calls, AllocError> {
    let mut calls = Calls::new(alloc);
    calls.push(call)?;
    Ok(calls)
}

#[test]
fn faults_of_the_outside_end_the_run(rt: HostRuntime) -> Result<(), Fail> {
    let alloc = rt.alloc();
    let mut input = MemSource::new(Bytes::from_slice(alloc, b"abc")?, failing(alloc, 3)?);
    let mut output = sink(alloc);
    let came = come_to(alloc, &[COPY], 1000, &mut input, &mut output)?;
    assert_eq!(rt; came, Err(MeanFault::Read));
    assert_eq!(rt; output.bytes(), b"ab".as_slice());
    assert_eq!(rt; input.rest(), b"c".as_slice());
    let mut input = source(alloc, b"abc")?;
    let mut output = MemSink::new(alloc, failing(alloc, 2)?);
    let came = come_to(alloc, &[COPY], 1000, &mut input, &mut output)?;
    assert_eq!(rt; came, Err(MeanFault::Write));
    assert_eq!(rt; output.bytes(), b"a".as_slice());
    assert_eq!(rt; input.rest(), b"c".as_slice());
    Ok(())
}

const STACK: &str = "
static int cells[64];
static int top;
int push(int v) { if (top == 64) { return 0; } cells[top] = v; top = top + 1; return 1; }
int pop(int *into) { if (top == 0) { return 0; } top = top - 1; *into = cells[top]; return 1; }
";

const OPERATORS: &str = "
int push(int v);
int pop(int *into);
int apply(int op) {
  int a, b;
  register int ok;
  ok = pop(&b);
  if (ok == 0) { return 0; }
  ok = pop(&a);
  if (ok == 0) { return 0; }
  if (op == '+') { a = a + b; } else if (op == '-') { a = a - b; }
  else if (op == '*') { a = a * b; } else if (b == 0) { return 0; } else { a = a / b; }
  ok = push(a);
  return ok;
}
";

const PRINT: &str = "
static const char bad[] = \"error\\n\";
void print_bad(void) { register const char *p; for (p = bad; *p != 0; p = p + 1) { putbyte(*p); } }
void print_int(int v) {
  char digits[12];
  register unsigned u;
  register int n;
  n = 0; u = v;
  if (v < 0) { putbyte('-'); u = 0u - u; }
  do { digits[n] = '0' + u % 10u; n = n + 1; u = u / 10u; } while (u != 0u);
  while (n > 0) { n = n - 1; putbyte(digits[n]); }
  putbyte('\\n');
}
";

const CALCULATOR: &str = "
int push(int v);
int pop(int *into);
int apply(int op);
void print_int(int v);
void print_bad(void);
int main(void) {
  register int c, n, digits, ok, r;
  int v;
  n = 0; digits = 0; ok = 1;
  c = getbyte();
  while (c != -1) {
    if (c >= '0' && c <= '9') { n = n * 10 + (c - '0'); digits = 1; }
    else {
      if (digits) { r = push(n); ok = ok & r; n = 0; digits = 0; }
      if (c == '+' || c == '-' || c == '*' || c == '/') { r = apply(c); ok = ok & r; }
      if (c == '\\n') {
        r = pop(&v); ok = ok & r;
        if (ok) { print_int(v); } else { print_bad(); }
        ok = 1;
      }
    }
    c = getbyte();
  }
  return 0;
}
";

#[test]
fn four_units_calculate(rt: HostRuntime) -> Result<(), Fail> {
    let alloc = rt.alloc();
    let orders: [&[&str]; 2] = [
        &[STACK, OPERATORS, PRINT, CALCULATOR],
        &[CALCULATOR, PRINT, OPERATORS, STACK],
    ];
    for texts in orders {
        let mut input = source(alloc, b"12 3 4 * +\n2 7 -\n1 0 /\n")?;
        let mut output = sink(alloc);
        let came = come_to(alloc, texts, 1000000, &mut input, &mut output)?;
        assert_eq!(rt; came, Ok(MeanEnd::Ended(0)));
        assert_eq!(rt; output.bytes(), b"24\n-5\nerror\n".as_slice());
        assert_eq!(rt; input.rest(), b"".as_slice());
    }
    Ok(())
}
