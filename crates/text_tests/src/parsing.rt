// What the parser answers.
use std::alloc::{AllocError, Global};
use text_grammar::{BinaryOp, Expr, External, Initialised, Initialiser, SyntaxFault};
use text_parser::parse;

#[test]
fn reads_each_alternative(rt: HostRuntime) {
    let table: [&[u8]; 24] = [
        b"",
        b"struct s { int a, *b[2]; const char c; struct s *d; }; struct s t;",
        b"int x, *y = 0, z[] = { 1, 2, }, w[2][3], v[][4] = {{1}, {2}};",
        b"static unsigned char s[4] = \"ab\"; extern signed int e; const unsigned u = 1u;",
        b"void f(); int g(void); char *h(int, unsigned *p, struct s *); signed char k(const char *);",
        b"static int f(int a, int *b) { register int i = 1, j; int k[2], *l; const int m = 3; }",
        b"void f(void) { ; { } { ; } }",
        b"void f(void) { g(); g(1, a + 2); x = 1; x = g(); x = g(1); *p = a; p->q.r[1] = h; }",
        b"void f(void) { return; } int g(void) { return a; }",
        b"void f(void) { while (1) { break; } do { continue; } while (a < b); }",
        b"void f(void) { if (a) { } if (a) { } else { } if (a) { } else if (b) { } else if (c) { } else { } }",
        b"void f(void) { for (;;) { } for (i = 0; i < 9; i = i + 1) { } for (g(); ; g()) { } }",
        b"int x = a || b && c | d ^ e & f == g != h < i > j <= k >= l << m >> n + o - p * q / r % s;",
        b"int x = - ~ ! * & a;",
        b"int x = (int) a + (char *) b - (struct s * *) (c);",
        b"int x = sizeof (int *) + sizeof a + sizeof (a)[1] + sizeof - a + sizeof sizeof (int);",
        b"int x = a[1][b + 1].c->d;",
        b"int x = 'a' + '\\n' + '\\x41' + '\\101' + 010 + 0x1F + 7u;",
        b"void f(void) { (a) = 1; (a)->b = 2; ((int *) a)[1] = 3; -a = 4; }",
        b"struct s *f(void); struct s g(struct s a); struct s a[2], *b;",
        b"void f(void) { x = y; x = y[1] * 2 + z; x = y.a->b; }",
        b"int main(void) { struct s *p; p = (struct s *) 0; return p == 0; }",
        b"void v(void, int); void w(void *); void x(const void); void y(void a);",
        b"unsigned int a; unsigned b; signed c; signed int d; unsigned char e; signed char f;",
    ];
    for text in table {
        assert!(rt; parse(rt.alloc(), text).is_ok());
    }
}

#[test]
fn answers_the_first_fault(rt: HostRuntime) {
    let table: [(&[u8], SyntaxFault); 30] = [
        (
            b"int main(void) { return 1 + ; }",
            SyntaxFault::Token { at: 28 },
        ),
        (b"int main(void) {", SyntaxFault::Token { at: 16 }),
        (b"int x = 4294967296u;", SyntaxFault::Literal { at: 8 }),
        (b"int x = 1 @ 2;", SyntaxFault::Char { at: 10 }),
        (b"x", SyntaxFault::Token { at: 0 }),
        (b"int x", SyntaxFault::Token { at: 5 }),
        (b"int x[][];", SyntaxFault::Token { at: 8 }),
        (b"int x[1][];", SyntaxFault::Token { at: 9 }),
        (b"int x[a];", SyntaxFault::Token { at: 6 }),
        (b"int x = {};", SyntaxFault::Token { at: 9 }),
        (b"int x = { 1,, };", SyntaxFault::Token { at: 12 }),
        (b"int x = \"a\" + 1;", SyntaxFault::Token { at: 12 }),
        (b"struct s { };", SyntaxFault::Token { at: 11 }),
        (b"struct s { int a[]; };", SyntaxFault::Token { at: 17 }),
        (b"struct s { int a; } x;", SyntaxFault::Token { at: 20 }),
        (b"int f(int) { }", SyntaxFault::Token { at: 11 }),
        (b"int f(int a, int) { }", SyntaxFault::Token { at: 18 }),
        (b"int f(int a,) { }", SyntaxFault::Token { at: 12 }),
        (b"int f(void) { int a[]; }", SyntaxFault::Token { at: 20 }),
        (b"int f(void) { ; int a; }", SyntaxFault::Token { at: 16 }),
        (
            b"int f(void) { if (a) b = 1; }",
            SyntaxFault::Token { at: 21 },
        ),
        (b"int f(void) { else { } }", SyntaxFault::Token { at: 14 }),
        (b"int f(void) { a + 1; }", SyntaxFault::Token { at: 16 }),
        (
            b"int f(void) { a = b + c(); }",
            SyntaxFault::Token { at: 23 },
        ),
        (b"int f(void) { a; }", SyntaxFault::Token { at: 15 }),
        (b"int x = (int);", SyntaxFault::Token { at: 13 }),
        (b"int x = sizeof (int) a;", SyntaxFault::Token { at: 21 }),
        (b"int x = a ? b : c;", SyntaxFault::Char { at: 10 }),
        (b"goto x;", SyntaxFault::Token { at: 0 }),
        (b"int x = 1 } @", SyntaxFault::Char { at: 12 }),
    ];
    for (text, fault) in table {
        assert!(rt; parse(rt.alloc(), text).err() == Some(fault));
    }
}

#[test]
fn sizeof_of_a_type_is_no_cast(rt: HostRuntime) -> Result<(), SyntaxFault> {
    let tree = parse(rt.alloc(), b"int x = sizeof ( int ) - 1;")?;
    let found = match tree.as_slice() {
        [External::Objects(_, _, items)] => match items.as_slice() {
            [item] => match &item.initialised {
                Some(
                    Initialised {
                        at,
                        value: Initialiser::Expr(Expr::Binary(place, BinaryOp::Sub, _, _)),
                    },
                ) => (*at, *place),
                _ => (0, 0),
            },
            _ => (0, 0),
        },
        _ => (0, 0),
    };
    assert!(rt; found == (6, 23));
    Ok(())
}

// `count` pairs of parentheses round 7, in a function.
fn nested(alloc: Global, count: usize) -> Result<Vec<u8>, AllocError> {
    let mut text = Vec::from_slice(alloc, b"int main(void) { return ")?;
    for _ in 0..count {
        text.push(b'(')?;
    }
    text.push(b'7')?;
    for _ in 0..count {
        text.push(b')')?;
    }
    text.extend_from_slice(b"; }")?;
    Ok(text)
}

// An object that begins with `count` of these bytes and 1.
fn prefixed(alloc: Global, byte: u8, count: usize) -> Result<Vec<u8>, AllocError> {
    let mut text = Vec::from_slice(alloc, b"int x=")?;
    for _ in 0..count {
        text.push(byte)?;
    }
    text.extend_from_slice(b"1;")?;
    Ok(text)
}

#[test]
fn keeps_the_limits(rt: HostRuntime) -> Result<(), AllocError> {
    let within = nested(rt.alloc(), 199)?;
    assert!(rt; parse(rt.alloc(), &within).is_ok());
    let beyond = nested(rt.alloc(), 200)?;
    assert!(rt; parse(rt.alloc(), &beyond).err() == Some(SyntaxFault::Deep { at: 223 }));
    let row = prefixed(rt.alloc(), b'-', 996)?;
    assert!(rt; parse(rt.alloc(), &row).is_ok());
    let longer = prefixed(rt.alloc(), b'-', 997)?;
    assert!(rt; parse(rt.alloc(), &longer).err() == Some(SyntaxFault::Deep { at: 1003 }));
    let unread = prefixed(rt.alloc(), b']', 1200)?;
    assert!(rt; parse(rt.alloc(), &unread).err() == Some(SyntaxFault::Deep { at: 1003 }));
    Ok(())
}
