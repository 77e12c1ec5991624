// For each rule of the types texts that break it, with the kind and the place that are told, and texts near them that are well typed.
use std::alloc::{AllocError, Global};
use text_parser::parse;
use typing_units::{TypeFault, TypeKind, check};

// What is told of a text: the fault of its types, if there is one.
fn told(alloc: Global, text: &[u8]) -> Result<Option<(TypeKind, u32)>, AllocError> {
    let Ok(tree) = parse(alloc, text) else {
        return Err(AllocError);
    };
    match check(alloc, &tree) {
        Ok(_) => Ok(None),
        Err(TypeFault::Rule { kind, at }) => Ok(Some((kind, at))),
        Err(TypeFault::Memory) => Err(AllocError),
    }
}

#[test]
fn unknown_names_members_and_sizes(rt: HostRuntime) -> Result<(), AllocError> {
    let table: [(&[u8], u32); 15] = [
        (b"int main(void) { return x; }", 24),
        (
            b"struct s { int a; }; struct s v; int main(void) { return v.b; }",
            59,
        ),
        (
            b"struct s { int a; }; struct s *p; int main(void) { return p->b; }",
            61,
        ),
        (b"struct q v;", 7),
        (b"extern struct q v;", 14),
        (b"int main(void) { struct q v; return 0; }", 24),
        (b"struct s { struct q m[2]; };", 18),
        (b"struct s { struct s m; };", 18),
        (b"unsigned main_size = sizeof(struct q);", 35),
        (b"struct q *p; int main(void) { p = p + 1; return 0; }", 36),
        (
            b"struct q *p; int main(void) { int a; a = p - p; return a; }",
            43,
        ),
        (b"struct q *p; struct q *f(void) { return &p[0]; }", 42),
        (b"struct q *p; int main(void) { return sizeof *p; }", 37),
        (b"static int f(void); int main(void) { return 0; }", 11),
        (b"int main(void) { f(); return 0; }", 17),
    ];
    for (text, at) in table {
        assert_eq!(rt; told(rt.alloc(), text)?, Some((TypeKind::Unknown, at)));
    }
    Ok(())
}

#[test]
fn what_is_declared_twice(rt: HostRuntime) -> Result<(), AllocError> {
    let table: [(&[u8], u32); 7] = [
        (b"int a; int a = 1;", 11),
        (b"int f(void) { return 0; } int f(void) { return 0; }", 30),
        (b"int f(int a, int a);", 17),
        (b"int f(int a) { int a; return 0; }", 19),
        (b"int f(void) { int a; char a; return 0; }", 26),
        (b"struct s { int a; }; struct s { int b; };", 28),
        (b"struct s { int a; char a; };", 23),
    ];
    for (text, at) in table {
        assert_eq!(rt; told(rt.alloc(), text)?, Some((TypeKind::Twice, at)));
    }
    Ok(())
}

#[test]
fn types_that_do_not_fit(rt: HostRuntime) -> Result<(), AllocError> {
    let table: [(&[u8], u32); 51] = [
        (b"extern int a; extern char a;", 26),
        (b"extern int a; static int a;", 25),
        (b"int f(void); char f(void);", 18),
        (b"int f(void); int f(int a);", 17),
        (b"int a; int a(void);", 11),
        (b"extern int a[2]; int a[3];", 21),
        (b"void v;", 5),
        (b"void v[2];", 5),
        (b"int a[0];", 4),
        (b"int a[];", 4),
        (b"extern void v;", 12),
        (b"struct s { void v; };", 16),
        (b"int main(void) { register int a[2]; return 0; }", 30),
        (
            b"struct s { int a; }; int main(void) { register struct s v; return 0; }",
            56,
        ),
        (b"struct s { int a; }; struct s f(void);", 30),
        (b"int f(void, int a);", 6),
        (b"struct s { int a; }; int f(struct s v);", 34),
        (b"int *p; int main(void) { return -p; }", 32),
        (b"int *p; int *q; int main(void) { return p + q; }", 42),
        (b"int *p; char *q; int main(void) { return p - q; }", 43),
        (b"int *p; int main(void) { return p < 1; }", 34),
        (b"int *p; int main(void) { return p == 1; }", 34),
        (b"int a; int main(void) { return *a; }", 31),
        (b"void *p; int main(void) { return *p; }", 33),
        (b"int a; int main(void) { return a[0]; }", 32),
        (b"int a; int main(void) { return a.b; }", 33),
        (b"int a; int main(void) { return a->b; }", 34),
        (b"int *p; int main(void) { return (int) p; }", 32),
        (b"int *p; int main(void) { p = 1; return 0; }", 27),
        (b"int a; int main(void) { a(); return 0; }", 24),
        (
            b"void f(void); int main(void) { int a; a = f(); return a; }",
            40,
        ),
        (b"int f(void); int main(void) { return f; }", 37),
        (b"int f(void); int main(void) { return sizeof f; }", 44),
        (
            b"struct s { int a; }; struct s v; struct s w; int main(void) { v = w; return 0; }",
            64,
        ),
        (
            b"int a[2]; int b[2]; int main(void) { a = b; return 0; }",
            39,
        ),
        (b"int main(void) { return sizeof(void); }", 24),
        (b"extern int a[]; int main(void) { return sizeof a; }", 40),
        (b"int main(void) { return; }", 17),
        (b"void f(void) { return 1; }", 15),
        (b"int main(void) { break; return 0; }", 17),
        (b"int main(void) { if (1) { continue; } return 0; }", 26),
        (b"int f(int *p); int main(void) { f(1); return 0; }", 34),
        (b"void *p; void *f(void) { return p + 1; }", 34),
        (
            b"struct s { int a; }; struct s v; int main(void) { if (v) { } return 0; }",
            54,
        ),
        (b"int *p; int main(void) { int a = p; return a; }", 31),
        (b"void *p; int *q; int main(void) { return q >= p; }", 43),
        (b"char *p; int *q; int main(void) { return q != p; }", 43),
        (
            b"struct s *p; struct t *q; int main(void) { return p == q; }",
            52,
        ),
        (b"int *p; int main(void) { return 1 & p; }", 34),
        (b"int *p; int main(void) { return 1 >> p; }", 34),
        (b"int *p; int main(void) { return 1 - p; }", 34),
    ];
    for (text, at) in table {
        assert_eq!(rt; told(rt.alloc(), text)?, Some((TypeKind::Kind, at)));
    }
    Ok(())
}

#[test]
fn numbers_of_arguments(rt: HostRuntime) -> Result<(), AllocError> {
    let table: [(&[u8], u32); 2] = [
        (b"int f(int a); int main(void) { f(); return 0; }", 31),
        (b"int main(void) { putbyte(1, 2); return 0; }", 17),
    ];
    for (text, at) in table {
        assert_eq!(rt; told(rt.alloc(), text)?, Some((TypeKind::Count, at)));
    }
    Ok(())
}

#[test]
fn what_is_no_place(rt: HostRuntime) -> Result<(), AllocError> {
    let table: [(&[u8], u32); 5] = [
        (b"int main(void) { 5 = 1; return 0; }", 19),
        (b"int a; int main(void) { (a + 1) = 1; return 0; }", 32),
        (b"int *f(int a) { return &a; }", 23),
        (b"int *f(void) { register int a; return &a; }", 38),
        (b"int *f(void) { return &5; }", 22),
    ];
    for (text, at) in table {
        assert_eq!(rt; told(rt.alloc(), text)?, Some((TypeKind::NotPlace, at)));
    }
    Ok(())
}

#[test]
fn reserved_names(rt: HostRuntime) -> Result<(), AllocError> {
    let table: [(&[u8], u32); 8] = [
        (b"int _start;", 4),
        (b"void _start(void);", 5),
        (b"int getbyte;", 4),
        (b"int getbyte(int a);", 4),
        (b"static int getbyte(void) { return 0; }", 11),
        (b"int getbyte(void) { return 0; }", 4),
        (b"int f(int putbyte);", 10),
        (b"int f(void) { int _start; return 0; }", 18),
    ];
    for (text, at) in table {
        assert_eq!(rt; told(rt.alloc(), text)?, Some((TypeKind::Reserved, at)));
    }
    Ok(())
}

#[test]
fn shapes_of_main(rt: HostRuntime) -> Result<(), AllocError> {
    let table: [(&[u8], u32); 4] = [
        (b"int main;", 4),
        (b"void main(void);", 5),
        (b"int main(int a);", 4),
        (b"static int main(void) { return 0; }", 11),
    ];
    for (text, at) in table {
        assert_eq!(rt; told(rt.alloc(), text)?, Some((TypeKind::MainShape, at)));
    }
    Ok(())
}

#[test]
fn initialisers_that_do_not_fit(rt: HostRuntime) -> Result<(), AllocError> {
    let table: [(&[u8], u32); 19] = [
        (b"int a; int b = a;", 15),
        (b"int a = -(1 / 0);", 8),
        (b"int a[2] = {1, 2, 3};", 18),
        (b"struct s { int a; }; struct s v = {1, 2};", 38),
        (b"int a[2] = 1;", 11),
        (b"int a = {1};", 8),
        (b"int a[2] = \"ab\";", 11),
        (b"char a[2] = \"abc\";", 12),
        (b"char *p = \"abc\";", 10),
        (b"extern int a = 1;", 13),
        (b"int f(void) { int a[2] = 1; return 0; }", 23),
        (b"int m[2][2]; int *p = m[1];", 23),
        (b"int *p = 0; int *q = p;", 21),
        (b"int a; char *p = &a;", 17),
        (b"int a = 1 << 32;", 10),
        (b"int a = 1 && 1 / 0;", 10),
        (b"int a; int b = 0 && a;", 17),
        (b"int *p = 1 - 1;", 11),
        (b"struct s { int m[2]; }; struct s v; int *p = v.m;", 47),
    ];
    for (text, at) in table {
        assert_eq!(rt; told(rt.alloc(), text)?, Some((TypeKind::Initialiser, at)));
    }
    Ok(())
}

#[test]
fn sizes_past_a_limit(rt: HostRuntime) -> Result<(), AllocError> {
    let table: [(&[u8], u32); 5] = [
        (b"char a[8388609];", 5),
        (b"extern char a[8388609];", 12),
        (b"char a[8388608]; char b[8388608]; char c[1];", 39),
        (
            b"int f(void) { char a[8388608]; char b[8388608]; char c[1]; return 0; }",
            53,
        ),
        (b"struct s { char a[8388608]; char b; };", 7),
    ];
    for (text, at) in table {
        assert_eq!(rt; told(rt.alloc(), text)?, Some((TypeKind::Size, at)));
    }
    Ok(())
}

#[test]
fn more_parameters_than_32(rt: HostRuntime) -> Result<(), AllocError> {
    let table: [(&[u8], u32); 1] = [(
        b"int f(int, int, int, int, int, int, int, int, int, int, int, int, int, int, int, int, int, int, int, int, int, int, int, int, int, int, int, int, int, int, int, int, int);",
        4,
    )];
    for (text, at) in table {
        assert_eq!(rt; told(rt.alloc(), text)?, Some((TypeKind::Params, at)));
    }
    Ok(())
}

// An object with so many items.
fn with_items(alloc: Global, items: u32) -> Result<Vec<u8>, AllocError> {
    let mut text = Vec::new(alloc);
    text.extend_from_slice(b"int a[65536] = {0")?;
    for _ in 1..items {
        text.extend_from_slice(b",0")?;
    }
    text.extend_from_slice(b"};")?;
    Ok(text)
}

// One node for the object, and one for each item.
#[test]
fn more_nodes_than_65536(rt: HostRuntime) -> Result<(), AllocError> {
    let most = with_items(rt.alloc(), 65_535)?;
    assert_eq!(rt; told(rt.alloc(), most.as_slice())?, None);
    let past = with_items(rt.alloc(), 65_536)?;
    assert_eq!(rt;
        told(rt.alloc(), past.as_slice())?,
        Some((TypeKind::Nodes, 4))
    );
    Ok(())
}

#[test]
fn texts_that_break_no_rule(rt: HostRuntime) -> Result<(), AllocError> {
    let table: [&[u8]; 30] = [
        b"int main(void) { int x; return x; }",
        b"struct s { int b; }; struct s v; struct s *p; int main(void) { return v.b + p->b; }",
        b"struct q *p; struct q *f(void) { return p; }",
        b"struct s { int a; struct s *next; }; struct s v[2]; unsigned u = sizeof(struct s);",
        b"struct q { int a; }; struct q *p; struct q *f(void) { return p + 1; }",
        b"static int f(void); int main(void) { return 0; } static int f(void) { return 1; }",
        b"extern int a; extern int a; int a = 1; extern int a;",
        b"int f(int a, int b); int f(int c, int d) { return c - d; }",
        b"struct s { int a; char b; }; struct t { int a; };",
        b"extern int a[]; int a[3]; extern int a[]; int main(void) { return sizeof a; }",
        b"int main(void) { register int a; int b[2]; a = 1; b[0] = a; return b[0]; }",
        b"int *p; char *q; int main(void) { int a; a = p - p; a = q - q; return p == 0; }",
        b"void *p; int *q; int main(void) { p = q; q = p; return p == q; }",
        b"int f(void); void g(void); int main(void) { int a; a = f(); g(); f(); return a; }",
        b"struct s { int a; }; struct s v; struct s w; int main(void) { v.a = w.a; return 0; }",
        b"void f(void) { return; } int g(void) { return 1; }",
        b"int main(void) { while (1) { break; } for (;;) { if (1) { continue; } break; } return 0; }",
        b"int f(int *p); int main(void) { int a; f(&a); f(0); return 0; }",
        b"int getbyte(void); void putbyte(int c); int main(void) { int c; c = getbyte(); putbyte(c); return 0; }",
        b"int f(void) { int c; c = getbyte(); return c; }",
        b"int getbyte_(void); int start; int _start_;",
        b"char a[3] = \"abc\"; char b[4] = \"abc\"; char c[] = \"abc\"; unsigned char d[5] = \"abc\";",
        b"int a[2] = {1, 2}; int b[] = {1, 2, 3}; int c[2][2] = {{1}, {2, 3}};",
        b"struct s { char c; int n; }; struct s v = {1, 2}; struct s w[2] = {{1}};",
        b"int a[4]; int *p = &a[1]; int *q = a + 2; int *r = 0; void *s = (void *) &a[3];",
        b"char a[8388608]; char b[8388608];",
        b"int f(int, int, int, int, int, int, int, int, int, int, int, int, int, int, int, int, int, int, int, int, int, int, int, int, int, int, int, int, int, int, int, int);",
        b"int f(int n) { int n_; { n_ = n; } return n_; }",
        b"int a; int f(int a) { return a; } int g(void) { char a; a = 1; return a; }",
        b"const char t[2] = {1, 2}; const int *p; int main(void) { return t[0]; }",
    ];
    for text in table {
        assert_eq!(rt; told(rt.alloc(), text)?, None);
    }
    Ok(())
}

#[test]
fn the_fault_of_least_place_is_told(rt: HostRuntime) -> Result<(), AllocError> {
    let table: [(&[u8], TypeKind, u32); 4] = [
        (b"int a = b; int a = c;", TypeKind::Unknown, 8),
        (
            b"int main(void) { 5 = y; return 0; }",
            TypeKind::NotPlace,
            19,
        ),
        (b"void f(void) { return y; }", TypeKind::Unknown, 22),
        (
            b"int f(void) { return 0; } char f(void) { return 0; }",
            TypeKind::Twice,
            31,
        ),
    ];
    for (text, kind, at) in table {
        assert_eq!(rt; told(rt.alloc(), text)?, Some((kind, at)));
    }
    Ok(())
}
