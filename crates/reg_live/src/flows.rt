// What nodes read and write, and which follow them.
ghost use Rattle.std.specs.Prelude.{◌≡◌, ℕ, ◌<◌, ◌≤◌, ◌^◌, ◌++◌, List, max};
ghost use Rattle.std.specs.List.{Contains};
ghost use Rattle.std.specs.Option.{option_to_list};
ghost use Rattle.flow_walks.specs.Flows.{Flow};
ghost use Rattle.flow_walks.specs.Liveness.{IsNode};
ghost use Rattle.flow_walks.specs.Lists.{IsPlace};
ghost use Rattle.rtl_lang.specs.Routines.{flow_of, routine};
ghost use Rattle.reg_live.specs.Sweeps.{AreBelow};

use rtl_lang::{RtlNode, RtlParts};

// The temporaries that a node reads: one or two operands, or the arguments of a call.
#[derive(Drop)]
pub struct Reads<'a> {
    pub left: Option<u32>,
    pub right: Option<u32>,
    pub arguments: &'a [u32],
}

// At most two nodes.
#[derive(Clone, Copy)]
pub struct Followers {
    pub first: Option<u32>,
    pub second: Option<u32>,
}

pub fn read_by(node: &RtlNode) -> Reads
    ensures { option_to_list result.left ++ option_to_list result.right ++ result.arguments.now ≡ (flow_of node.now).reads }
{
    let (left, right) = match node {
        RtlNode::Apply { left, right, .. } => (Some(*left), Some(*right)),
        RtlNode::Load { place, .. } => (Some(*place), None),
        RtlNode::Store { place, value, .. } => (Some(*place), Some(*value)),
        RtlNode::Branch { on, .. } => (Some(*on), None),
        RtlNode::Return { value } => (*value, None),
        RtlNode::Call { args, .. } => {
            return Reads {
                left: None,
                right: None,
                arguments: args.as_slice(),
            };
        }
        RtlNode::Nop { .. }
        | RtlNode::Const { .. }
        | RtlNode::Address { .. }
        | RtlNode::Local { .. } => (None, None),
    };
    Reads {
        left,
        right,
        arguments: &[],
    }
}

// The temporary that a node writes, if any.
pub fn written(node: &RtlNode) -> Option<u32>
    ensures { option_to_list result ≡ (flow_of node.now).writes }
{
    match node {
        RtlNode::Const { to, .. }
        | RtlNode::Address { to, .. }
        | RtlNode::Local { to, .. }
        | RtlNode::Apply { to, .. }
        | RtlNode::Load { to, .. } => Some(*to),
        RtlNode::Call { to, .. } => *to,
        RtlNode::Nop { .. }
        | RtlNode::Store { .. }
        | RtlNode::Branch { .. }
        | RtlNode::Return { .. } => None,
    }
}

fn behind_node(node: &RtlNode) -> Followers
    ensures { option_to_list result.first ++ option_to_list result.second ≡ (flow_of node.now).next }
{
    match node {
        RtlNode::Nop { next }
        | RtlNode::Const { next, .. }
        | RtlNode::Address { next, .. }
        | RtlNode::Local { next, .. }
        | RtlNode::Apply { next, .. }
        | RtlNode::Load { next, .. }
        | RtlNode::Store { next, .. }
        | RtlNode::Call { next, .. } => Followers {
            first: Some(*next),
            second: None,
        },
        RtlNode::Branch { yes, no, .. } => Followers {
            first: Some(*yes),
            second: Some(*no),
        },
        RtlNode::Return { .. } => Followers {
            first: None,
            second: None,
        },
    }
}

// The nodes that follow a place. The first node follows the entry, which has the number behind the last node.
pub fn behind(function: &RtlParts, place: usize) -> Followers
    ensures { (flow : Flow ℕ) → IsPlace (routine function.now) place flow →
        option_to_list result.first ++ option_to_list result.second ≡ flow.next }
{
    match function.graph.get(place) {
        Some(node) => behind_node(node),
        None => Followers {
            first: Some(function.entry),
            second: None,
        },
    }
}

fn greater(one: usize, other: usize) -> usize
    ensures { result ≡ max one other }
{
    if one < other { other } else { one }
}

// The calls below give the least number above all that is read.

fn above(temporary: Option<u32>) -> usize
    ensures below { AreBelow result (option_to_list temporary) }
    ensures small { result ≤ 2 ^ 32 }
{
    match temporary {
        Some(temporary) => temporary as usize + 1,
        None => 0,
    }
}

fn above_all(temporaries: &[u32]) -> usize
    ensures below { AreBelow result temporaries.now }
    ensures small { result ≤ 2 ^ 32 }
{
    let mut least = 0;
    for temporary in temporaries {
        least = greater(least, *temporary as usize + 1);
    }
    least
}

fn above_reads(node: &RtlNode) -> usize
    ensures below { AreBelow result (flow_of node.now).reads }
    ensures small { result ≤ 2 ^ 32 }
{
    let reads = read_by(node);
    let left = above(reads.left);
    let right = above(reads.right);
    let arguments = above_all(reads.arguments);
    let operands = greater(left, right);
    greater(operands, arguments)
}

// How many bits a row needs.
pub fn width(function: &RtlParts) -> usize
    ensures wide { (n : ℕ) (flow : Flow ℕ) → IsNode (routine function.now) n flow → AreBelow result flow.reads }
    ensures small { result ≤ 2 ^ 32 }
{
    let nodes = function.graph.as_slice();
    let mut width = 0;
    for node in nodes {
        let above = above_reads(node);
        width = greater(width, above);
    }
    width
}
