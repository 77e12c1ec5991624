// Functions.
ghost use Rattle.std.specs.Prelude.{◌≡◌, IfOk};
ghost use Rattle.reg_homes.specs.Homes.{Placed};
ghost use Rattle.reg_validate.specs.Fixed.{fixed_function};

use crate::fixed::{fixed_homes, fixed_slots};
use crate::placing::placed_graph;
use ltl_lang::{LtlFn, LtlParts};
use rtl_lang::{RtlFn, RtlParts};
use sqlite_items::Items;
use std::alloc::{AllocError, Global};

fn fixed_parts(alloc: Global, parts: &RtlParts) -> Result<LtlParts, AllocError>
    ensures { IfOk result (λ made. made ≡ fixed_function parts.now) }
{
    let homes = fixed_homes(alloc, parts.temporaries)?;
    let graph = placed_graph(alloc, homes.as_slice(), parts.graph.as_slice())?;
    Ok(LtlParts {
        symbol: parts.symbol,
        is_static: parts.is_static,
        parameters: parts.parameters,
        homes,
        slots: fixed_slots(parts.temporaries),
        locals: Items::from_slice(alloc, parts.locals.as_slice())?,
        need: parts.need,
        entry: parts.entry,
        graph,
    })
}

/// The function over the fixed homes.
///
/// # Errors
/// Memory has run out.
#[tactic(auto, using(crate::specs::laws::Placing::fixed_placed, crate::specs::laws::Placing::fixed_ranges))]
pub fn with_fixed_homes(alloc: Global, function: &RtlFn) -> Result<LtlFn, AllocError>
    ensures { IfOk result (λ made. Placed function.now made) }
{
    Ok(LtlFn::new(fixed_parts(alloc, function.parts())?))
}
