// Functions.
ghost use Rattle.std.specs.Prelude.{◌≡◌, IfOk};
ghost use Rattle.rtl_gen.specs.Translation.{end_value, end_depth, lay_return, rtl_function};

use crate::expressions::push;
use crate::extents::{body_extent, greater};
use crate::statements::sequence;
use core_lang::{Ending, Function};
use rtl_lang::{RtlFn, RtlNode, RtlParts};
use sqlite_items::Items;
use std::alloc::{AllocError, Global};

// How many temporaries the end of a body takes.
fn end_depth(ending: Ending) -> u32
    ensures { result ≡ end_depth ending }
{
    match ending {
        Ending::Zero => 1,
        Ending::Bare | Ending::Stuck => 0,
    }
}

// The nodes at the end of a body.
fn end(graph: &mut Vec<RtlNode>, ending: Ending, scratch: u32) -> Result<u32, AllocError>
    ensures { IfOk result (λ number. (number, graph.new.items) ≡ lay_return graph.old.items (end_value ending) scratch) }
{
    match ending {
        Ending::Zero => {
            let value = Some(scratch);
            let next = push(graph, RtlNode::Return { value })?;
            push(
                graph,
                RtlNode::Const {
                    value: 0,
                    to: scratch,
                    next,
                },
            )
        }
        Ending::Bare | Ending::Stuck => push(graph, RtlNode::Return { value: None }),
    }
}

/// A function in Rtl.
#[tactic(auto, using(crate::specs::laws::Ranging::function_in_range), unfolding(crate::specs::Translation::rtl_function))]
pub fn rtl_function(alloc: Global, function: &Function) -> Result<RtlFn, AllocError>
    ensures { IfOk result (λ made. made ≡ rtl_function function.now) }
{
    let body = function.body.as_slice();
    let extent = body_extent(body)?;
    let scratch = greater(function.parameters, extent.reach);
    let depth = greater(extent.depth, end_depth(function.ending));
    let Some(temporaries) = scratch.checked_add(depth) else {
        return Err(AllocError);
    };
    let mut graph = Vec::new(alloc);
    let end = end(&mut graph, function.ending, scratch)?;
    let mut exits = Vec::new(alloc);
    let entry = sequence(alloc, &mut graph, body, scratch, end, end, &mut exits)?;
    if graph.len() > u32::MAX as usize {
        return Err(AllocError);
    }
    Ok(RtlFn::new(RtlParts {
        symbol: function.symbol,
        is_static: function.is_static,
        parameters: function.parameters,
        temporaries,
        locals: Items::from_slice(alloc, function.locals.as_slice())?,
        need: function.need,
        entry,
        graph: Items::from_vec(graph),
    }))
}
