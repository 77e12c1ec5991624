// The calls of a unit's text.
ghost use Rattle.std.specs.Prelude.{◌≡◌, ◌++◌, ◌+◌, ◌^◌, ◌<◌, [], ◌∷◌, map, length, OnOk, IfOk};
ghost use Rattle.second_code.specs.Code.{statement_size};
ghost use Rattle.second_code.specs.Parts.{body_of, body_size, text_of, uses_from, unit_uses_from};
ghost use Rattle.second_code.specs.PartSteps.{use_of};

use crate::text::{statement_size, statements};
use cc_base::Sequence;
use second_form::{Item, SmallStmt};
use std::alloc::{AllocError, Global};

/// A call: what it names, and where its word stands in text.
#[derive(Clone, Copy, Drop)]
pub struct CallSite<'a> {
    pub callee: &'a [u8],
    pub place: u32,
}

/// The calls of a unit, in the order of its text.
pub type CallSites<'a> = Sequence<CallSite<'a>>;

// Appends the call of a statement whose code begins here, if it has one.
fn push_call<'a>(
    calls: &mut CallSites<'a>,
    at: u32,
    statement: &'a SmallStmt,
) -> Result<(), AllocError>
    requires { at + statement_size statement.now < 2 ^ 32 }
    ensures { OnOk result (map use_of calls.new ≡ map use_of calls.old ++ uses_from at (statement.now ∷ [])) }
{
    match statement {
        SmallStmt::Put(_) => calls.push(CallSite {
            callee: b"putbyte",
            place: at + 7,
        }),
        SmallStmt::Call(name) => calls.push(CallSite {
            callee: name.as_slice(),
            place: at + 1,
        }),
        SmallStmt::Return(_) => Ok(()),
    }
}

// Appends the calls of statements whose code begins here, and gives where it ends.
fn push_calls<'a>(
    calls: &mut CallSites<'a>,
    at: u32,
    body: &'a [SmallStmt],
) -> Result<u32, AllocError>
    requires { at + body_size body.now < 2 ^ 32 }
    ensures calls { OnOk result (map use_of calls.new ≡ map use_of calls.old ++ uses_from at body.now) }
    ensures end { IfOk result (λ end. end ≡ at + body_size body.now) }
{
    let mut end = at;
    for statement in body {
        push_call(calls, end, statement)?;
        end += statement_size(statement);
    }
    Ok(end)
}

// The calls of a unit.
pub(crate) fn calls<'a>(alloc: Global, items: &'a [Item]) -> Result<CallSites<'a>, AllocError>
    requires { length (text_of items.now) < 2 ^ 32 }
    ensures { IfOk result (λ calls. map use_of calls ≡ unit_uses_from 0 items.now) }
{
    let mut calls = CallSites::new(alloc);
    let mut at = 0;
    for item in items {
        at = push_calls(&mut calls, at, statements(item))?;
    }
    Ok(calls)
}
