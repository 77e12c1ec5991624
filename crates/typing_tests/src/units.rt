// Typed units of texts: what functions need, what objects begin with, and what a unit shows to others.
use cc_base::GlobalPart;
use clight_unit::ClightUnit;
use std::alloc::{AllocError, Global};
use text_parser::parse;
use typing_units::check;

fn unit(alloc: Global, text: &[u8]) -> Result<ClightUnit, AllocError> {
    let Ok(tree) = parse(alloc, text) else {
        return Err(AllocError);
    };
    match check(alloc, &tree) {
        Ok(unit) => Ok(unit),
        Err(_) => Err(AllocError),
    }
}

#[test]
fn functions_have_their_nodes_and_needs(rt: HostRuntime) -> Result<(), AllocError> {
    let text =
        b"int f(int n) { register int r; if (n == 0) { return 0; } r = f(n - 1); return r; } int main(void) { char pad[180]; register int r; r = f(3234); return r; }";
    let unit = unit(rt.alloc(), text)?;
    let table = [(0, 16, 324), (1, 8, 372)];
    for (number, nodes, need) in table {
        let function = unit.functions.get(number).expect(&rt, "a function");
        assert_eq!(rt; function.nodes, nodes);
        assert_eq!(rt; unit.need(number as u32), Some(need));
    }
    assert_eq!(rt; unit.need(2), None);
    assert_eq!(rt; unit.nodes(), 24);
    Ok(())
}

// Whether an object's first bytes are these.
fn begins(part: &GlobalPart, bytes: &[u8]) -> bool {
    part.bytes.as_slice() == bytes
}

#[test]
fn objects_begin_as_their_initialisers_say(rt: HostRuntime) -> Result<(), AllocError> {
    // The declaration, its size and alignment, whether it is writable, and its first bytes.
    let table: [(&[u8], u32, u32, bool, &[u8]); 24] = [
        (b"char a[3] = \"abc\";", 3, 1, true, b"abc"),
        (b"char a[4] = \"abc\";", 4, 1, true, b"abc\x00"),
        (b"char a[] = \"abc\";", 4, 1, true, b"abc\x00"),
        (
            b"int a[4] = {1, 0, -1};",
            16,
            4,
            true,
            b"\x01\x00\x00\x00\x00\x00\x00\x00\xff\xff\xff\xff",
        ),
        (
            b"int a[] = {1, 2};",
            8,
            4,
            true,
            b"\x01\x00\x00\x00\x02\x00\x00\x00",
        ),
        (
            b"struct s { char c; int n; }; struct s a[2] = {{1, 2}, {3}};",
            16,
            4,
            true,
            b"\x01\x00\x00\x00\x02\x00\x00\x00\x03",
        ),
        (b"struct s { int n; char c; }; struct s a;", 8, 4, true, b""),
        (b"const char a = 300;", 1, 1, false, b"\x2c"),
        (b"char a = -1;", 1, 1, true, b"\xff"),
        (b"const int *a;", 4, 4, true, b""),
        (b"const int a[2] = {7};", 8, 4, false, b"\x07\x00\x00\x00"),
        (
            b"unsigned a = sizeof(int *) << 8;",
            4,
            4,
            true,
            b"\x00\x04\x00\x00",
        ),
        (
            b"char a[2][3] = {{1}, {2, 3}};",
            6,
            1,
            true,
            b"\x01\x00\x00\x02\x03",
        ),
        (b"char a[8388608];", 8_388_608, 1, true, b""),
        (
            b"struct s { char a; int b; char c; }; struct s a[3];",
            36,
            4,
            true,
            b"",
        ),
        (
            b"struct s { char a[3]; char b; int c; }; struct s a;",
            8,
            4,
            true,
            b"",
        ),
        (
            b"struct s { char a; int *p; char b[5]; }; struct s a;",
            16,
            4,
            true,
            b"",
        ),
        (b"struct s { char a[5]; }; struct s a;", 5, 1, true, b""),
        (b"int a = (char) 200;", 4, 4, true, b"\xc8\xff\xff\xff"),
        (b"int a = 0 && 1 / 0;", 4, 4, true, b"\x00\x00\x00\x00"),
        (b"int a = 2 || 1 / 0;", 4, 4, true, b"\x01\x00\x00\x00"),
        (b"int a = 1 << 31;", 4, 4, true, b"\x00\x00\x00\x80"),
        (b"int a = -1 / 2;", 4, 4, true, b"\x00\x00\x00\x00"),
        (
            b"unsigned a = 4294967295U / 2;",
            4,
            4,
            true,
            b"\xff\xff\xff\x7f",
        ),
    ];
    for (text, size, align, is_writable, bytes) in table {
        let unit = unit(rt.alloc(), text)?;
        assert_eq!(rt; unit.globals().len(), 1);
        let part = unit.globals().at(0);
        assert_eq!(rt;
            (part.size, part.align, part.writable),
            (size, align, is_writable)
        );
        assert!(rt; begins(part, bytes));
    }
    Ok(())
}

#[test]
fn pointers_begin_as_their_initialisers_say(rt: HostRuntime) -> Result<(), AllocError> {
    // The declaration of the second object, and its word that is a pointer: its place, and how far behind the first object.
    let table: [(&[u8], u32, u32); 7] = [
        (b"int t[4]; int *a = &t[2];", 0, 8),
        (b"int t[4]; int *a = t + 1;", 0, 4),
        (b"int t[4]; char *a = (char *) t + 5;", 0, 5),
        (b"int t[4]; void *a = 2 + (char *) &t[1];", 0, 6),
        (b"int t[4]; int *a = t - 1;", 0, 4_294_967_292),
        (
            b"struct s { int n; int m; char c; }; struct s t[3]; int *a = &t[2].m;",
            0,
            28,
        ),
        (
            b"struct s { int n; int m; }; struct s t; struct q { char c; int *p; }; struct q a[2] = {{1, &t.m}};",
            4,
            4,
        ),
    ];
    for (text, offset, plus) in table {
        let unit = unit(rt.alloc(), text)?;
        assert_eq!(rt; unit.globals().len(), 2);
        let part = unit.globals().at(1);
        assert_eq!(rt; part.uses.len(), 1);
        let word = part.uses.at(0);
        assert_eq!(rt; (word.offset, word.plus), (offset, plus));
        assert!(rt; word.name.as_slice() == b"t".as_slice());
    }
    Ok(())
}

#[test]
fn units_show_definitions_and_uses(rt: HostRuntime) -> Result<(), AllocError> {
    let text =
        b"extern int e[3]; extern char u[]; static int s; int f(void); int g(void) { int a; a = f(); s = e[0]; return u[0]; } int d[2];";
    let unit = unit(rt.alloc(), text)?;
    let names: [(&[u8], bool); 6] = [
        (b"s", true),
        (b"e", false),
        (b"u", false),
        (b"f", false),
        (b"g", false),
        (b"d", false),
    ];
    assert_eq!(rt; unit.symbol_names().len(), names.len());
    for (number, row) in names.iter().enumerate() {
        let (name, is_local) = *row;
        let symbol = unit.symbol_names().at(number);
        assert!(rt; symbol.name.as_slice() == name && symbol.local == is_local);
    }
    let face = unit.face();
    assert_eq!(rt; (face.defs.len(), face.uses.len()), (2, 3));
    // 64, a block of 4, and 16 for each of 13 nodes.
    assert_eq!(rt;
        (
            face.defs.at(0).function,
            face.defs.at(0).size,
            face.defs.at(0).need
        ),
        (true, 0, 276)
    );
    assert_eq!(rt;
        (
            face.defs.at(1).function,
            face.defs.at(1).size,
            face.defs.at(1).need
        ),
        (false, 8, 0)
    );
    let stated = [12, 0, 0];
    for (number, size) in stated.iter().enumerate() {
        assert_eq!(rt; face.uses.at(number).stated, *size);
    }
    Ok(())
}

// What is only measured is no symbol, and a parameter hides a static object.
#[test]
fn static_definitions_come_first(rt: HostRuntime) -> Result<(), AllocError> {
    let text =
        b"int f(void); static int t; extern int v; int u = sizeof v; int f(void) { return 0; } static int g(int t) { f(); t = u; return t; }";
    let unit = unit(rt.alloc(), text)?;
    let names: [(&[u8], bool); 4] = [(b"t", true), (b"g", true), (b"f", false), (b"u", false)];
    assert_eq!(rt; unit.symbol_names().len(), names.len());
    for (number, row) in names.iter().enumerate() {
        let (name, is_local) = *row;
        let symbol = unit.symbol_names().at(number);
        assert!(rt; symbol.name.as_slice() == name && symbol.local == is_local);
    }
    Ok(())
}
