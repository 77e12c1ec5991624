// In which order temporaries are taken.
ghost use Rattle.std.specs.Prelude.{◌≡◌, ℕ, ◌<◌, ◌≤◌, ◌^◌, All, length, IfOk, IfSome};
ghost use Rattle.index_chains.specs.Lists.{IsLinked};
ghost use Rattle.bit_rows.specs.Rows.{height};
ghost use Rattle.reg_assign.specs.Rows.{IsSquare};

use crate::meetings::Meetings;
use bit_rows::BitRows;
use index_chains::Chains;
use std::alloc::{AllocError, Global};

// The lists are of those with no, one, two and three neighbours that are not yet taken, and of those with more.
const HEADS: u32 = 5;

fn head_of(degree: u32) -> u32
    ensures { result < 5 }
{
    degree.min(HEADS - 1)
}

// Puts a temporary into the list of its degree, out of any other.
fn put(chains: &mut Chains, degree: u32, node: u32)
    requires heads { length chains.old.lists ≡ 5 }
    requires node { node < chains.old.nodes }
    ensures heads { length chains.new.lists ≡ 5 }
    ensures nodes { chains.new.nodes ≡ chains.old.nodes }
{
    if chains.is_linked(node) {
        chains.unlink(node);
    }
    chains.push_front(head_of(degree), node);
}

fn chains_of(alloc: Global, degrees: &[u32]) -> Result<Chains, AllocError>
    requires { length degrees.now < 2 ^ 32 }
    ensures heads { IfOk result (λ made. length made.lists ≡ 5) }
    ensures nodes { IfOk result (λ made. made.nodes ≡ length degrees.now) }
{
    let mut chains = Chains::new(alloc, HEADS, degrees.len() as u32)?;
    for node in 0..degrees.len() {
        put(&mut chains, degrees[node], node as u32);
    }
    Ok(chains)
}

// The one that is taken next: one with the fewest neighbours, where four count as many.
fn fewest(chains: &Chains) -> Option<u32>
    requires { length chains.now.lists ≡ 5 }
    ensures linked { IfSome result (IsLinked chains.now.lists) }
    ensures in_range { IfSome result (λ node. node < chains.now.nodes) }
{
    for head in 0..HEADS {
        if let Some(node) = chains.first(head) {
            return Some(node);
        }
    }
    None
}

// A neighbour of this one was taken.
fn lower(chains: &mut Chains, degrees: &mut Vec<u32>, node: u32)
    requires heads { length chains.old.lists ≡ 5 }
    requires nodes { chains.old.nodes ≡ length degrees.old.items }
    requires node { node < chains.old.nodes }
    ensures heads { length chains.new.lists ≡ 5 }
    ensures nodes { chains.new.nodes ≡ chains.old.nodes }
    ensures count { length degrees.new.items ≡ length degrees.old.items }
{
    let place = node as usize;
    let degree = degrees[place];
    let less = degree.saturating_sub(1);
    degrees[place] = less;
    if less < HEADS - 1 && chains.is_linked(node) {
        put(chains, less, node);
    }
}

fn lower_neighbours(chains: &mut Chains, rows: &BitRows, degrees: &mut Vec<u32>, taken: u32)
    requires heads { length chains.old.lists ≡ 5 }
    requires nodes { chains.old.nodes ≡ length degrees.old.items }
    requires square { IsSquare rows.now (length degrees.old.items) }
    requires node { taken < chains.old.nodes }
    ensures heads { length chains.new.lists ≡ 5 }
    ensures nodes { chains.new.nodes ≡ chains.old.nodes }
    ensures count { length degrees.new.items ≡ length degrees.old.items }
{
    let mut from = 0;
    while let Some(other) = rows.first_from(taken as usize, from) {
        lower(chains, degrees, other as u32);
        from = other + 1;
    }
}

/// The temporaries with rows, in the order in which they are taken.
///
/// Takes time in the words of the rows.
pub fn taken(alloc: Global, meetings: &mut Meetings) -> Result<Vec<u32>, AllocError>
    requires square { IsSquare meetings.old.rows (length meetings.old.degrees.items) }
    ensures square { IsSquare meetings.new.rows (length meetings.new.degrees.items) }
    ensures count { length meetings.new.degrees.items ≡ length meetings.old.degrees.items }
    ensures in_range { IfOk result (λ made. All (λ node. node < length meetings.new.degrees.items) made.items) }
{
    let count = meetings.degrees.len();
    let mut chains = chains_of(alloc, meetings.degrees.as_slice())?;
    let mut order = Vec::new(alloc);
    for _ in 0..count {
        let Some(node) = fewest(&chains) else {
            break;
        };
        chains.unlink(node);
        order.push(node)?;
        lower_neighbours(&mut chains, &meetings.rows, &mut meetings.degrees, node);
    }
    Ok(order)
}
