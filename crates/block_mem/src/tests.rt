// Tables of values that C compilers give, and of all that has no value.
use crate::{BlockName, Byte, Element, Memory, Op, Value, Width};
use std::alloc::{AllocError, Global};
use std::process::Abort;
use std::test::Fail;

const LEAST: u32 = 0x8000_0000;

const MINUS_ONE: u32 = 0xFFFF_FFFF;

const MINUS_SEVEN: u32 = 0xFFFF_FFF9;

// The name of the object `index` of the first unit.
fn object(index: u32) -> BlockName {
    BlockName::Global { unit: 0, index }
}

fn pointer(index: u32, offset: u32) -> Value {
    Value::Ptr {
        block: object(index),
        offset,
    }
}

// A new block, under a name that no live block has.
fn add(
    rt: &impl Abort,
    memory: &mut Memory,
    name: BlockName,
    size: u32,
    writable: bool,
) -> Result<(), AllocError> {
    let taken = memory.is_live(name);
    assert!(rt; !taken);
    memory.alloc_block(name, size, writable)
}

fn end(rt: &impl Abort, memory: &mut Memory, name: BlockName) {
    let live = memory.is_live(name);
    assert!(rt; live);
    memory.free_block(name);
}

// Block 0 has 8 bytes and block 1 has 4; block 2 is read-only with 4; block 3 is dead; block 4 was never made.
fn blocks(rt: &impl Abort, alloc: Global) -> Result<Memory, AllocError> {
    let mut memory = Memory::new(alloc)?;
    add(rt, &mut memory, object(0), 8, true)?;
    add(rt, &mut memory, object(1), 4, true)?;
    add(rt, &mut memory, object(2), 4, false)?;
    add(rt, &mut memory, object(3), 8, true)?;
    end(rt, &mut memory, object(3));
    Ok(memory)
}

// What an operator gives on pairs of integers. On a pointer it gives nothing.
fn gives(rt: &impl Abort, memory: &Memory, op: Op, rows: &[(u32, u32, Option<u32>)]) {
    for (left, right, want) in rows {
        let given = memory.apply(op, &Value::Int(*left), &Value::Int(*right));
        assert_eq!(rt; given, want.map(Value::Int), "{op:?} {left} {right}");
        let of_pointer = memory.apply(op, &pointer(0, 0), &Value::Int(*right));
        assert_eq!(rt; of_pointer, None, "{op:?} of a pointer");
    }
}

#[test]
fn quotients_and_remainders(rt: HostRuntime) -> Result<(), Fail> {
    let memory = Memory::new(rt.alloc())?;
    gives(
        &rt,
        &memory,
        Op::DivSigned,
        &[
            (MINUS_SEVEN, 2, Some(0xFFFF_FFFD)),
            (7, 0xFFFF_FFFE, Some(0xFFFF_FFFD)),
            (1, 0, None),
            (LEAST, MINUS_ONE, None),
        ],
    );
    gives(
        &rt,
        &memory,
        Op::DivUnsigned,
        &[
            (MINUS_SEVEN, 2, Some(0x7FFF_FFFC)),
            (LEAST, MINUS_ONE, Some(0)),
            (1, 0, None),
        ],
    );
    gives(
        &rt,
        &memory,
        Op::RemSigned,
        &[
            (MINUS_SEVEN, 2, Some(MINUS_ONE)),
            (7, 0xFFFF_FFFE, Some(1)),
            (LEAST, MINUS_ONE, None),
            (0, 0, None),
        ],
    );
    gives(
        &rt,
        &memory,
        Op::RemUnsigned,
        &[(MINUS_SEVEN, 2, Some(1)), (0, 0, None)],
    );
    Ok(())
}

#[test]
fn shifts(rt: HostRuntime) -> Result<(), Fail> {
    let memory = Memory::new(rt.alloc())?;
    gives(
        &rt,
        &memory,
        Op::Shl,
        &[
            (1, 31, Some(LEAST)),
            (3, 31, Some(LEAST)),
            (1, 32, None),
            (1, MINUS_ONE, None),
        ],
    );
    gives(
        &rt,
        &memory,
        Op::ShrSigned,
        &[
            (LEAST, 31, Some(MINUS_ONE)),
            (MINUS_SEVEN, 1, Some(0xFFFF_FFFC)),
            (1, 32, None),
        ],
    );
    gives(
        &rt,
        &memory,
        Op::ShrUnsigned,
        &[(LEAST, 31, Some(1)), (1, 32, None)],
    );
    Ok(())
}

#[test]
fn pointers_are_compared(rt: HostRuntime) -> Result<(), Fail> {
    let memory = blocks(&rt, rt.alloc())?;
    let null = Value::Int(0);
    let one = Value::Int(1);
    let yes = Some(Value::Int(1));
    let no = Some(Value::Int(0));
    let table: [(Op, Value, Value, Option<Value>); 26] = [
        (Op::PtrNot, null, null, yes),
        (Op::PtrNot, pointer(0, 8), null, no),
        (Op::PtrNot, pointer(0, 9), null, None),
        (Op::PtrNot, pointer(3, 0), null, None),
        (Op::PtrNot, one, null, None),
        (Op::PtrEq, null, null, yes),
        (Op::PtrEq, pointer(0, 8), null, no),
        (Op::PtrEq, null, pointer(4, 0), None),
        (Op::PtrEq, pointer(0, 8), pointer(0, 8), yes),
        (Op::PtrEq, pointer(0, 9), pointer(0, 9), None),
        (Op::PtrEq, pointer(0, 7), pointer(1, 3), no),
        (Op::PtrEq, pointer(0, 0), pointer(1, 0), no),
        (Op::PtrEq, pointer(0, 8), pointer(1, 0), None),
        (Op::PtrEq, pointer(3, 0), pointer(3, 0), None),
        (Op::PtrNe, pointer(0, 0), pointer(1, 0), yes),
        (Op::PtrNe, null, null, no),
        (Op::PtrNe, pointer(0, 0), pointer(1, 4), None),
        (Op::PtrLt, pointer(0, 0), pointer(0, 8), yes),
        (Op::PtrLt, pointer(0, 0), pointer(0, 9), None),
        (Op::PtrLt, pointer(0, 0), pointer(1, 0), None),
        (Op::PtrLt, null, null, None),
        (Op::PtrGt, pointer(0, 0), pointer(0, 8), no),
        (Op::PtrLe, pointer(0, 8), pointer(0, 8), yes),
        (Op::PtrGe, pointer(0, 8), pointer(0, 8), yes),
        (Op::PtrGe, pointer(0, 0), pointer(0, 1), no),
        (Op::PtrGe, pointer(3, 0), pointer(3, 0), None),
    ];
    for (op, left, right, want) in table {
        assert_eq!(rt; memory.apply(op, &left, &right), want, "{op:?}");
    }
    Ok(())
}

#[test]
fn first_bytes(rt: HostRuntime) -> Result<(), Fail> {
    let mut memory = Memory::new(rt.alloc())?;
    let name = object(0);
    add(&rt, &mut memory, name, 6, false)?;
    for offset in 0u8..6 {
        let part = Byte::Part {
            block: name,
            offset: 5,
            which: offset,
        };
        let byte = if offset < 4 {
            part
        } else {
            Byte::Plain(offset)
        };
        let inside = memory.inside(name, u32::from(offset));
        assert!(rt; inside);
        memory.set_first(name, u32::from(offset), byte);
    }
    assert_eq!(rt;
        memory.load(&pointer(0, 0), Width::Pointer),
        Some(pointer(0, 5))
    );
    assert_eq!(rt;
        memory.load(&pointer(0, 5), Width::Signed8),
        Some(Value::Int(5))
    );
    assert_eq!(rt;
        memory.load(&pointer(0, 4), Width::Word),
        None,
        "past the end"
    );
    Ok(())
}

// `char c = 200;` is -56, `unsigned char u = 200;` is 200, and -7 / 2 is -3 with -1 left.
#[test]
fn the_worked_conversions(rt: HostRuntime) -> Result<(), Fail> {
    let mut memory = blocks(&rt, rt.alloc())?;
    let minus_56 = Some(Value::Int(0xFFFF_FFC8));
    let given = Value::Int(200);
    assert_eq!(rt;
        memory.store(&pointer(1, 1), Width::Signed8, &given),
        Some(())
    );
    assert_eq!(rt; memory.load(&pointer(1, 1), Width::Signed8), minus_56);
    assert_eq!(rt; memory.load(&pointer(1, 1), Width::Unsigned8), Some(given));
    assert_eq!(rt; memory.apply(Op::LowSigned, &given, &given), minus_56);
    assert_eq!(rt; memory.apply(Op::LowUnsigned, &given, &given), Some(given));
    Ok(())
}
