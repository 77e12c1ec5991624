// The objects of units.
use second_code::unit_object;
use std::alloc::{AllocError, Global};
use text_parser::parse;

fn object_of(alloc: Global, text: &[u8]) -> Result<Option<Vec<u8>>, AllocError> {
    match parse(alloc, text) {
        Ok(tree) => unit_object(alloc, &tree),
        Err(_) => Ok(None),
    }
}

#[test]
fn objects_have_their_sizes(rt: HostRuntime) -> Result<(), AllocError> {
    // The text, the size of the file, and the place of its section headers.
    let rows: [(&[u8], usize, u8); 2] = [
        (
            b"int f(void); int main(void) { f(); putbyte(66); return 3; }",
            708,
            12,
        ),
        (b"int f(void) { putbyte(65); return 0; }", 676, 236),
    ];
    for (text, size, low) in rows {
        let file = object_of(rt.alloc(), text)?.expect(&rt, "a unit");
        assert_eq!(rt; file.len(), size);
        assert_eq!(rt; file[32], low);
    }
    assert!(rt; object_of(rt.alloc(), b"int f;")?.is_none());
    Ok(())
}
