// The nodes of arguments.
ghost use Rattle.std.specs.Prelude.{◌≡◌, map, IfOk};
ghost use Rattle.rtl_gen.specs.Trees.{tree};
ghost use Rattle.rtl_gen.specs.Translation.{homes, lay_operands};

use crate::expressions::{above, behind, home, operand};
use core_lang::Expression;
use rtl_lang::RtlNode;
use sqlite_items::Items;
use std::alloc::{AllocError, Global};

/// The temporaries where the values of arguments are.
pub fn homes(
    alloc: Global,
    scratch: u32,
    arguments: &[Expression],
) -> Result<Items<u32>, AllocError>
    ensures { IfOk result (λ made. made ≡ homes scratch (map tree arguments.now)) }
{
    let mut made = Items::new(alloc);
    let mut free = scratch;
    'arguments: for argument in arguments {
        made.push(home(free, argument))?;
        free = above(free)?;
    }
    Ok(made)
}

/// The nodes of all arguments, the last one's first.
pub fn operands(
    graph: &mut Vec<RtlNode>,
    arguments: &[Expression],
    scratch: u32,
    next: u32,
) -> Result<u32, AllocError>
    ensures { IfOk result (λ number. (number, graph.new.items) ≡ lay_operands (next, graph.old.items) (map tree arguments.now) scratch) }
{
    let mut at = next;
    'arguments: for left in (0..arguments.len()).rev() {
        let free = behind(scratch, left)?;
        at = operand(graph, &arguments[left], free, at)?;
    }
    Ok(at)
}
