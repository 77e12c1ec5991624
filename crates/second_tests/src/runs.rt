// What programs of the second form come to, by a plain interpreter that shares nothing with the definition.
use crate::forms::form_of;
use cc_base::Outcome;
use second_form::{Item, SecondForm, SmallStmt};
use std::alloc::{AllocError, Global};

// How many bytes of stack all active calls may need together.
const ROOM: usize = 1048512;

// How many calls the interpreter nests at most.
const DEPTH: usize = 100;

#[derive(Drop)]
struct Run {
    outcome: Outcome,
    turns: usize,
    acts: Vec<u8>,
}

// The unit's definition of a name, and whether it is static.
fn own<'a>(items: &'a [Item], name: &[u8]) -> Option<(bool, &'a [SmallStmt])> {
    for item in items {
        if let Some(body) = &item.body {
            if item.name.as_slice() == name {
                return Some((item.local, body.as_slice()));
            }
        }
    }
    None
}

// The definition of a name that is not static, and the number of its unit.
fn shared<'a>(units: &'a [SecondForm], name: &[u8]) -> Option<(usize, &'a [SmallStmt])> {
    for (number, unit) in units.iter().enumerate() {
        if let Some((false, body)) = own(unit.as_slice(), name) {
            return Some((number, body));
        }
    }
    None
}

// What a name means in a unit.
fn meaning<'a>(
    units: &'a [SecondForm],
    number: usize,
    name: &[u8],
) -> Option<(usize, &'a [SmallStmt])> {
    if let Some(unit) = units.get(number) {
        if let Some((_, body)) = own(unit.as_slice(), name) {
            return Some((number, body));
        }
    }
    shared(units, name)
}

// The bytes of stack that a call of a function needs.
fn need(body: &[SmallStmt]) -> usize {
    let mut nodes = 1usize;
    for statement in body {
        let more = match statement {
            SmallStmt::Call(_) => 1,
            SmallStmt::Put(_) | SmallStmt::Return(_) => 2,
        };
        nodes = nodes.saturating_add(more);
    }
    nodes.saturating_mul(16).saturating_add(64)
}

// Runs a call of a name, where calls that need so much are active. It gives what the call returns, or nothing where
// the run is over.
fn call(
    run: &mut Run,
    units: &[SecondForm],
    (number, name): (usize, &[u8]),
    needed: usize,
    depth: usize,
) -> Result<Option<u32>, AllocError> {
    let Some((home, body)) = meaning(units, number, name) else {
        run.outcome = Outcome::Wrong;
        return Ok(None);
    };
    let needed = needed.saturating_add(need(body));
    if needed > ROOM || depth == 0 {
        run.outcome = Outcome::Deep;
        return Ok(None);
    }
    for statement in body {
        run.turns = run.turns.saturating_add(1);
        match statement {
            SmallStmt::Put(value) => run.acts.push((*value & 0xff) as u8)?,
            SmallStmt::Call(called) => {
                let place = (home, called.as_slice());
                if call(run, units, place, needed, depth - 1)?.is_none() {
                    return Ok(None);
                }
            }
            SmallStmt::Return(value) => return Ok(Some(*value)),
        }
    }
    run.outcome = Outcome::Wrong;
    Ok(None)
}

// The whole run of a program. It must end.
fn run_of(alloc: Global, units: &[SecondForm]) -> Result<Run, AllocError> {
    let mut run = Run {
        outcome: Outcome::Running,
        turns: 0,
        acts: Vec::new(alloc),
    };
    let main = (units.len(), b"main".as_slice());
    if let Some(value) = call(&mut run, units, main, 0, DEPTH)? {
        run.outcome = Outcome::Ended((value & 0xff) as u8);
    }
    Ok(run)
}

#[test]
fn runs_come_to_what_the_rules_say(rt: HostRuntime) -> Result<(), AllocError> {
    let table: [(&[u8], &[u8], Outcome, usize, &[u8]); 4] = [
        (
            b"int f(void); int main(void) { f(); putbyte(66); return 3; }",
            b"int f(void) { putbyte(65); return 0; }",
            Outcome::Ended(3),
            5,
            b"AB",
        ),
        (
            b"static int f(void) { putbyte(65); return 0; } int main(void) { f(); return 256; }",
            b"int f(void) { putbyte(66); return 0; }",
            Outcome::Ended(0),
            4,
            b"A",
        ),
        (
            b"int f(void); int main(void) { f(); return 1; }",
            b"static int f(void) { return 0; }",
            Outcome::Wrong,
            1,
            b"",
        ),
        (
            b"int f(void) { putbyte(321); return 0; }",
            b"int f(void); int main(void) { f(); f(); return 2147483647; }",
            Outcome::Ended(255),
            7,
            b"AA",
        ),
    ];
    for (first, second, outcome, turns, acts) in table {
        let mut units = Vec::new(rt.alloc());
        for text in [first, second] {
            units.push(form_of(rt.alloc(), text)?.expect(&rt, "a text of the form"))?;
        }
        let run = run_of(rt.alloc(), &units)?;
        assert_eq!(rt; run.outcome, outcome);
        assert_eq!(rt; run.turns, turns);
        assert!(rt; run.acts.as_slice() == acts);
    }
    Ok(())
}

// A function that calls itself for ever, and has a thousand statements after that.
#[test]
fn calls_that_need_too_much_are_deep(rt: HostRuntime) -> Result<(), AllocError> {
    let mut text = Vec::from_slice(rt.alloc(), b"int main(void) { main(); ")?;
    for _ in 0..1000 {
        text.extend_from_slice(b"putbyte(1);")?;
    }
    text.extend_from_slice(b"return 0; }")?;
    let mut units = Vec::new(rt.alloc());
    units.push(form_of(rt.alloc(), &text)?.expect(&rt, "a text of the form"))?;
    let run = run_of(rt.alloc(), &units)?;
    // A call needs 64 + 16 * (1 + 1 + 2000 + 2) = 32128 bytes, and 33 such calls are the first that need too much.
    assert_eq!(rt; run.outcome, Outcome::Deep);
    assert_eq!(rt; run.turns, 32);
    assert!(rt; run.acts.is_empty());
    Ok(())
}
