// Rows after inserts and joins.
use crate::BitRows;
use std::process::Abort;
use std::test::Fail;

const ROWS: usize = 3;

const WIDTH: usize = 200;

#[test]
fn rows_keep_their_bits(rt: HostRuntime) -> Result<(), Fail> {
    let mut rows = BitRows::new(rt.alloc(), ROWS, WIDTH)?;
    assert!(rt; rows.insert(0, 199));
    assert!(rt; rows.insert(0, 64));
    assert!(rt; rows.insert(0, 0));
    assert!(rt; !rows.insert(0, 64));
    assert!(rt; rows.insert(1, 63));
    assert_eq!(rt;
        rows.members(rt.alloc(), 0)?.as_slice(),
        [0, 64, 199].as_slice()
    );
    assert!(rt; rows.join_but(1, 0, 64));
    assert!(rt; !rows.join_but(1, 0, 64));
    assert_eq!(rt;
        rows.members(rt.alloc(), 1)?.as_slice(),
        [0, 63, 199].as_slice()
    );
    assert!(rt; rows.join(2, 1));
    assert!(rt; rows.join(2, 0));
    assert!(rt; !rows.join(2, 0));
    assert_eq!(rt;
        rows.members(rt.alloc(), 2)?.as_slice(),
        [0, 63, 64, 199].as_slice()
    );
    assert!(rt; !rows.has(0, 63));
    assert!(rt; rows.has(2, 64));
    assert_eq!(rt; rows.first_from(0, 65), Some(199));
    assert_eq!(rt; rows.first_from(1, 200), None);
    Ok(())
}
