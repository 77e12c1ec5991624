// Which trees are of the form, and their items.
use second_form::{SecondForm, SmallStmt, second_form};
use std::alloc::{AllocError, Global};
use text_parser::parse;

// The items of a text, where it is a unit's text of the form.
pub(crate) fn form_of(alloc: Global, text: &[u8]) -> Result<Option<SecondForm>, AllocError> {
    match parse(alloc, text) {
        Ok(tree) => second_form(alloc, &tree),
        Err(_) => Ok(None),
    }
}

#[test]
fn reads_trees_of_the_form(rt: HostRuntime) -> Result<(), AllocError> {
    let table: [(&[u8], usize); 10] = [
        (b"", 0),
        (b" \t\r\n", 0),
        (b"int f(void);int f();", 2),
        (b"int f(void) { f(); return 2147483647; }", 1),
        (b"static int f(void);\nstatic int f(void){return 0;}", 2),
        (b"int\tf\n(\rvoid ) { putbyte\t( 0 ) ; return\n7 ; }", 1),
        (
            b"int _a1(void); int main(void) { _a1(); main(); return 0; }",
            2,
        ),
        (b"signed f(void){return(07);}", 1),
        (b"int f(void){putbyte(0x7f);return 0;}// 1", 1),
        (b"int f(void);/* a function */", 1),
    ];
    for (text, count) in table {
        let items = form_of(rt.alloc(), text)?.expect(&rt, "a text of the form");
        assert_eq!(rt; items.len(), count);
    }
    Ok(())
}

#[test]
fn gives_names_and_statements(rt: HostRuntime) -> Result<(), AllocError> {
    let text = b"int f(void); static int g(void) { putbyte(72); f(); return 7; }";
    let items = form_of(rt.alloc(), text)?.expect(&rt, "a text of the form");
    assert_eq!(rt; items.len(), 2);
    let f = items.at(0);
    assert!(rt; !f.local && f.body.is_none());
    assert!(rt; f.name.as_slice() == b"f".as_slice());
    let g = items.at(1);
    assert!(rt; g.local);
    let statements = g.body.as_ref().expect(&rt, "a body");
    assert_eq!(rt; statements.len(), 3);
    assert!(rt; matches!(statements.at(0), SmallStmt::Put(72)));
    assert!(rt; matches!(statements.at(1), SmallStmt::Call(_)));
    assert!(rt; matches!(statements.at(2), SmallStmt::Return(7)));
    Ok(())
}

#[test]
fn refuses_trees_that_are_no_items(rt: HostRuntime) -> Result<(), AllocError> {
    let table: [&[u8]; 18] = [
        b"int f(void)",
        b"int f(void){}",
        b"int f(void){putbyte(1);}",
        b"int f(void){;return 0;}",
        b"int f(void){return;}",
        b"int f(void){return 1u;}",
        b"int f(void){return 2147483648;}",
        b"int f(void){return -1;}",
        b"int f(void){return 0;return 0;}",
        b"int f(void){putbyte();return 0;}",
        b"int f(void){putbyte(1,2);return 0;}",
        b"int f(int a);",
        b"int f(void){int a;return 0;}",
        b"int *f(void);",
        b"const int f(void);",
        b"extern int f(void);",
        b"void f(void);",
        b"int f;",
    ];
    for text in table {
        assert!(rt; form_of(rt.alloc(), text)?.is_none());
    }
    Ok(())
}

#[test]
fn refuses_names_against_the_rules(rt: HostRuntime) -> Result<(), AllocError> {
    let table: [&[u8]; 9] = [
        b"int main(void) { f(); return 0; } int f(void);",
        b"int f(void){return 0;} int f(void){return 0;}",
        b"static int f(void){return 0;} int f(void);",
        b"int f(void); static int f(void){return 0;}",
        b"static int f(void);",
        b"static int main(void){return 0;}",
        b"int _start(void);",
        b"int putbyte(void);",
        b"int f(void){getbyte();return 0;}",
    ];
    for text in table {
        assert!(rt; form_of(rt.alloc(), text)?.is_none());
    }
    Ok(())
}
