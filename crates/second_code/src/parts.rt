// What the object of a unit holds.
ghost use Rattle.std.specs.Prelude.{◌≡◌, IfOk};
ghost use Rattle.second_code.specs.Weights.{IsLight};
ghost use Rattle.second_code.specs.Parts.{parts_of};

use crate::calls::calls;
use crate::definitions::definitions;
use crate::names::symbol_names;
use crate::relocs::relocs;
use crate::symbols::symbols;
use crate::text::text;
use cc_base::Bytes;
use elf_file::ObjectParts;
use second_form::SecondForm;
use std::alloc::{AllocError, Global};

/// What the object of a unit holds: its text, where each call's word holds -4, its symbols, the local ones first, and
/// a relocation for each call. The time is linear in the unit, but for the look-ups of names. The only error is want
/// of memory.
pub fn object_parts(alloc: Global, items: &SecondForm) -> Result<ObjectParts, AllocError>
    requires { IsLight items.now }
    ensures { IfOk result (λ parts. parts ≡ parts_of items.now) }
{
    let items = items.as_slice();
    let definitions = definitions(alloc, items)?;
    let calls = calls(alloc, items)?;
    let calls = calls.as_slice();
    let names = symbol_names(alloc, items, &definitions, calls)?;
    let names = names.as_slice();
    Ok(ObjectParts {
        text: text(alloc, items)?,
        fixed: Bytes::new(alloc),
        held: Bytes::new(alloc),
        zeros: 0,
        symbols: symbols(alloc, names, &definitions)?,
        relocs: relocs(alloc, names, calls)?,
    })
}
