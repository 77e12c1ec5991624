// Which temporaries are live together.
ghost use Rattle.std.specs.Prelude.{◌≡◌, ℕ, ◌+◌, ◌<◌, ◌≤◌, ◌^◌, length, IfOk};
ghost use Rattle.bit_rows.specs.Rows.{height};
ghost use Rattle.std.specs.Option.{option_to_list};
ghost use Rattle.rtl_lang.specs.Routines.{flow_of};
ghost use Rattle.reg_assign.specs.Rows.{IsSquare};

use bit_rows::BitRows;
use reg_live::Lives;
use rtl_lang::{RtlFn, RtlNode};
use std::alloc::{AllocError, Global};

// Temporaries from this number on have no row and get slots, so that the rows of bits take 8 MiB at most.
const ROWS: u32 = 8_192;

// Makes two temporaries neighbours, if they are not one and have rows.
fn meet(rows: &mut BitRows, degrees: &mut Vec<u32>, one: u32, other: u32)
    requires square { IsSquare rows.old (length degrees.old.items) }
    ensures square { IsSquare rows.new (length degrees.new.items) }
    ensures count { length degrees.new.items ≡ length degrees.old.items }
{
    let one = one as usize;
    let other = other as usize;
    let count = degrees.len();
    if one < count && other < count && one != other {
        if rows.insert(one, other) {
            degrees[one] = degrees[one].saturating_add(1);
        }
        if rows.insert(other, one) {
            degrees[other] = degrees[other].saturating_add(1);
        }
    }
}

fn meet_all(rows: &mut BitRows, degrees: &mut Vec<u32>, one: u32, list: &[u32])
    requires square { IsSquare rows.old (length degrees.old.items) }
    ensures square { IsSquare rows.new (length degrees.new.items) }
    ensures count { length degrees.new.items ≡ length degrees.old.items }
{
    for other in list {
        meet(rows, degrees, one, *other);
    }
}

// Makes all of a list neighbours of each other. The lists come by rising places, and `stood` has the number behind the last place in
// whose list each temporary stood. Two that both stood in the list before are neighbours already, which makes the work linear where
// lists change little from place to place.
fn meet_in_list(
    rows: &mut BitRows,
    degrees: &mut Vec<u32>,
    stood: &mut Vec<usize>,
    place: usize,
    list: &[u32],
)
    requires square { IsSquare rows.old (length degrees.old.items) }
    requires more { place + 1 < 2 ^ 64 }
    ensures square { IsSquare rows.new (length degrees.new.items) }
    ensures count { length degrees.new.items ≡ length degrees.old.items }
{
    for one in list {
        if let Some(last) = stood.get_mut(*one as usize) {
            let comes = *last != place;
            *last = place + 1;
            if comes {
                meet_all(rows, degrees, *one, list);
            }
        }
    }
}

// The temporary that a node writes, if any.
fn written(node: &RtlNode) -> Option<u32>
    ensures { option_to_list result ≡ (flow_of node.now).writes }
{
    match node {
        RtlNode::Const { to, .. }
        | RtlNode::Address { to, .. }
        | RtlNode::Local { to, .. }
        | RtlNode::Apply { to, .. }
        | RtlNode::Load { to, .. } => Some(*to),
        RtlNode::Call { to, .. } => *to,
        RtlNode::Nop { .. }
        | RtlNode::Store { .. }
        | RtlNode::Branch { .. }
        | RtlNode::Return { .. } => None,
    }
}

// Makes what a place writes neighbours of its list. The entry, behind the last node, writes the parameters.
fn meet_written(
    rows: &mut BitRows,
    degrees: &mut Vec<u32>,
    function: &RtlFn,
    place: usize,
    list: &[u32],
)
    requires square { IsSquare rows.old (length degrees.old.items) }
    ensures square { IsSquare rows.new (length degrees.new.items) }
    ensures count { length degrees.new.items ≡ length degrees.old.items }
{
    match function.parts().graph.get(place) {
        Some(node) => {
            if let Some(to) = written(node) {
                meet_all(rows, degrees, to, list);
            }
        }
        None => {
            for parameter in 0..function.parts().parameters {
                meet_all(rows, degrees, parameter, list);
            }
        }
    }
}

/// The neighbours of the first temporaries, and how many each has.
#[derive(Drop)]
pub struct Meetings {
    pub rows: BitRows,
    pub degrees: Vec<u32>,
}

/// Which temporaries of a function are live together.
///
/// Takes time in the lists, and for each temporary that stands in a list and not in the one before it once more in that list.
pub fn meetings_of(alloc: Global, function: &RtlFn, lives: &Lives) -> Result<Meetings, AllocError>
    ensures square { IfOk result (λ made. IsSquare made.rows (length made.degrees.items)) }
    ensures count { IfOk result (λ made. length made.degrees.items ≤ function.now.temporaries) }
{
    let count = function.temps().min(ROWS) as usize;
    let mut rows = BitRows::new(alloc, count, count)?;
    let mut degrees = vec![in alloc; 0u32; count]?;
    let mut stood = vec![in alloc; usize::MAX; count]?;
    for place in 0..lives.places() {
        let list = lives.after(place);
        meet_in_list(&mut rows, &mut degrees, &mut stood, place, list);
        meet_written(&mut rows, &mut degrees, function, place, list);
    }
    Ok(Meetings { rows, degrees })
}
