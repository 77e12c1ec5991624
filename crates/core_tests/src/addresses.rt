// What `CoreGen` makes of an object's address and the numbers that are added to it.
use core_gen::CoreGen;
use core_lang::{Expression, Function, Statement};
use pass_core::Pass;
use std::process::Abort;
use std::test::Fail;
use test_programs::unit_of;

// Each function returns an address, or what stands there.
const SUMS: &str = "int a[8]; struct s { char c; int m[4]; }; struct s t[2];
int *first(void) { return a; }
int *second(void) { return a + 1; }
int *of_address(void) { return &a[1] + 2; }
int *nested(void) { return (a + 1) + 2; }
int held(void) { return *(a + 3); }
int indexed(void) { return a[7]; }
int *of_member(void) { return t[1].m + 2; }
int through_arrow(void) { return (&t[0] + 1)->m[3]; }
int *around(void) { return a + 1073741825; }
int *by_number(int i) { return a + i; }
int *back(void) { return a - 1; }
";

fn offset_of(expression: &Expression) -> Option<u32> {
    match expression {
        Expression::Address(_, offset) => Some(*offset),
        _ => None,
    }
}

// The offset of the one address that a function's only statement returns, or returns what stands at. None where it does
// anything else.
fn returned(function: &Function) -> Option<u32> {
    if function.body.len() != 1 {
        return None;
    }
    match function.body.get(0) {
        Some(Statement::Return(Some(Expression::Load(_, place)))) => offset_of(place.get()),
        Some(Statement::Return(Some(value))) => offset_of(value),
        _ => None,
    }
}

#[test]
fn an_address_takes_constants_up(rt: HostRuntime) -> Result<(), Fail> {
    let alloc = rt.alloc();
    let unit = unit_of(alloc, SUMS.as_bytes()).ok_or("no unit")?;
    let made = CoreGen.run(alloc, &unit)?;
    let wanted = [
        Some(0),
        Some(4),
        Some(12),
        Some(12),
        Some(12),
        Some(28),
        Some(32),
        Some(36),
        Some(4),
        None,
        None,
    ];
    assert_eq!(rt; made.functions.len(), wanted.len());
    for (function, offset) in made.functions.as_slice().iter().zip(wanted) {
        assert_eq!(rt; returned(function), offset);
    }
    Ok(())
}
