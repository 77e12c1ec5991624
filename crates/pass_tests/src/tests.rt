// Each pass and both together, run on a unit and on a program of two.
use crate::laws::Both;
use crate::passes::{HurryUp, SlowDown};
use crate::unit::ToyUnit;
use cc_base::{Bytes, Def, Face, Name, Sequence, SymbolName};
use pass_core::{Pass, Then, run_all};
use std::alloc::{AllocError, Global};
use std::test::Fail;
use unit_names::Naming;

fn toy(alloc: Global, name: &[u8], bytes: &[u8]) -> Result<ToyUnit, AllocError> {
    let mut defs = Sequence::new(alloc);
    defs.push(Def {
        name: Name::from_slice(alloc, name)?,
        function: true,
        size: 0,
        need: 64,
    })?;
    let mut symbol_names = Sequence::new(alloc);
    symbol_names.push(SymbolName {
        name: Name::from_slice(alloc, name)?,
        local: false,
    })?;
    Ok(ToyUnit {
        naming: Naming {
            face: Face {
                defs,
                uses: Sequence::new(alloc),
            },
            symbol_names,
            globals: Sequence::new(alloc),
        },
        bytes: Bytes::from_slice(alloc, bytes)?,
    })
}

fn both() -> Both {
    Then {
        first: SlowDown,
        second: HurryUp,
    }
}

#[test]
fn one_pass_behind_another_makes_a_unit(rt: HostRuntime) -> Result<(), Fail> {
    let alloc = rt.alloc();
    let unit = toy(alloc, b"main".as_slice(), b"H\0".as_slice())?;
    let made = both().run(alloc, &unit)?;
    assert_eq!(rt; made.bytes.as_slice(), b"H\0".as_slice());
    assert_eq!(rt; made.naming.face.defs.len(), 1);
    assert_eq!(rt; made.naming.symbol_names.len(), 1);
    Ok(())
}

#[test]
fn each_unit_of_a_list_is_made(rt: HostRuntime) -> Result<(), Fail> {
    let alloc = rt.alloc();
    let mut units = Vec::new(alloc);
    units.push(toy(alloc, b"main".as_slice(), b"H".as_slice())?)?;
    units.push(toy(alloc, b"more".as_slice(), b"i\0".as_slice())?)?;
    let made = run_all(&both(), alloc, units.as_slice())?;
    assert_eq!(rt; made.len(), 2);
    assert_eq!(rt; made[0].bytes.as_slice(), b"H".as_slice());
    assert_eq!(rt; made[1].bytes.as_slice(), b"i\0".as_slice());
    Ok(())
}
