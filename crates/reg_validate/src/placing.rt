// Nodes whose temporaries have homes.
ghost use Rattle.std.specs.Prelude.{◌≡◌, map, option_map, IfOk};
ghost use Rattle.reg_homes.specs.Homes.{home_of, placed};

use ltl_lang::{Loc, LtlNode};
use rtl_lang::RtlNode;
use sqlite_items::Items;
use std::alloc::{AllocError, Global};

// The home of a temporary. One that is beyond all homes has none, and stands in ebx: no node in range names it.
fn home(homes: &[Loc], temporary: u32) -> Loc
    ensures { result ≡ home_of homes.now temporary }
{
    match homes.get(temporary as usize) {
        Some(home) => *home,
        None => Loc::Ebx,
    }
}

fn home_if_any(homes: &[Loc], temporary: Option<u32>) -> Option<Loc>
    ensures { result ≡ option_map (home_of homes.now) temporary }
{
    match temporary {
        Some(temporary) => Some(home(homes, temporary)),
        None => None,
    }
}

fn placed_arguments(
    alloc: Global,
    homes: &[Loc],
    arguments: &[u32],
) -> Result<Items<Loc>, AllocError>
    ensures { IfOk result (λ made. made ≡ map (home_of homes.now) arguments.now) }
{
    let mut made = Items::new(alloc);
    'arguments: for argument in arguments {
        made.push(home(homes, *argument))?;
    }
    Ok(made)
}

// A node with each temporary in its home.
fn placed_node(alloc: Global, homes: &[Loc], node: &RtlNode) -> Result<LtlNode, AllocError>
    ensures { IfOk result (λ made. made ≡ placed (home_of homes.now) node.now) }
{
    Ok(match node {
        RtlNode::Nop { next } => LtlNode::Nop { next: *next },
        RtlNode::Const { value, to, next } => LtlNode::Const {
            value: *value,
            to: home(homes, *to),
            next: *next,
        },
        RtlNode::Address {
            name,
            plus,
            to,
            next,
        } => LtlNode::Address {
            name: *name,
            plus: *plus,
            to: home(homes, *to),
            next: *next,
        },
        RtlNode::Local { index, to, next } => LtlNode::Local {
            index: *index,
            to: home(homes, *to),
            next: *next,
        },
        RtlNode::Apply {
            op,
            left,
            right,
            to,
            next,
        } => LtlNode::Apply {
            op: *op,
            left: home(homes, *left),
            right: home(homes, *right),
            to: home(homes, *to),
            next: *next,
        },
        RtlNode::Load {
            width,
            place,
            to,
            next,
        } => LtlNode::Load {
            width: *width,
            place: home(homes, *place),
            to: home(homes, *to),
            next: *next,
        },
        RtlNode::Store {
            width,
            place,
            value,
            next,
        } => LtlNode::Store {
            width: *width,
            place: home(homes, *place),
            value: home(homes, *value),
            next: *next,
        },
        RtlNode::Call {
            name,
            args,
            to,
            next,
        } => LtlNode::Call {
            name: *name,
            args: placed_arguments(alloc, homes, args.as_slice())?,
            to: home_if_any(homes, *to),
            next: *next,
        },
        RtlNode::Branch { on, yes, no } => LtlNode::Branch {
            on: home(homes, *on),
            yes: *yes,
            no: *no,
        },
        RtlNode::Return { value } => LtlNode::Return {
            value: home_if_any(homes, *value),
        },
    })
}

/// The nodes of a graph, each with its temporaries in their homes.
///
/// # Errors
/// Memory has run out.
pub fn placed_graph(
    alloc: Global,
    homes: &[Loc],
    graph: &[RtlNode],
) -> Result<Items<LtlNode>, AllocError>
    ensures { IfOk result (λ made. made ≡ map (placed (home_of homes.now)) graph.now) }
{
    let mut made = Items::new(alloc);
    'nodes: for node in graph {
        made.push(placed_node(alloc, homes, node)?)?;
    }
    Ok(made)
}
