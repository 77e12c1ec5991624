// The needs of two functions: `int f(int n)` with four statements and a register local, and a `main` that calls it.
use crate::{ClightUnit, Function, Signature, ValueBase, ValueType};
use cc_base::{Face, Sequence};
use sqlite_items::Items;
use std::alloc::{AllocError, Global};
use std::test::Fail;

fn int_type() -> ValueType {
    ValueType {
        base: ValueBase::Int,
        stars: 0,
    }
}

fn function(alloc: Global, symbol: u32, nodes: u32, need: u32) -> Function {
    Function {
        symbol,
        is_static: false,
        signature: Signature {
            result: int_type(),
            parameters: Items::new(alloc),
        },
        registers: 1,
        locals: Items::new(alloc),
        body: Items::new(alloc),
        nodes,
        need,
    }
}

fn unit(alloc: Global) -> Result<ClightUnit, AllocError> {
    let mut functions = Items::new(alloc);
    functions.push(function(alloc, 0, 16, 324))?;
    functions.push(function(alloc, 1, 8, 372))?;
    Ok(ClightUnit {
        face: Face {
            defs: Sequence::new(alloc),
            uses: Sequence::new(alloc),
        },
        symbol_names: Sequence::new(alloc),
        callees: Items::new(alloc),
        globals: Sequence::new(alloc),
        functions,
        nodes: 24,
    })
}

#[test]
fn needs_are_those_of_the_functions(rt: HostRuntime) -> Result<(), Fail> {
    let unit = unit(rt.alloc())?;
    assert_eq!(rt; unit.need(0), Some(324));
    assert_eq!(rt; unit.need(1), Some(372));
    assert_eq!(rt; unit.need(2), None);
    assert_eq!(rt; unit.nodes(), 24);
    assert_eq!(rt; unit.face().defs.len(), 0);
    assert_eq!(rt; unit.globals().len(), 0);
    assert_eq!(rt; unit.symbol_names().len(), 0);
    Ok(())
}
