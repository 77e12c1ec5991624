// Lists that are linked by index.
ghost use Rattle.std.specs.Prelude.{◌≡◌, ℕ, ◌<◌, ◌+◌, ◌↔◌, [], length, replicate, slice_get, slice_index, nat_lt, if◌then◌else◌, Some, None, IfOk, IfSome, IsTrue};
ghost use Rattle.index_chains.specs.Lists.{list_at, Stands, IsLinked, IsDisjoint, with_front, without, LeavesOthers};

use std::alloc::{AllocError, Global};
use std::marker::Model;

/// Lists of nodes, of which each node stands in one at most. There is a list for each head.
///
/// Heads and nodes are numbered from 0, and their numbers are fixed from the start. Contracts see the list of each head and how many
/// nodes there are. Each call but `new` takes constant time and no memory.
#[derive(Drop)]
pub struct Chains {
    // The cell behind each cell and the one before it. The nodes are the first cells, by their numbers, and the heads follow them.
    // Each list is a ring through its head's cell, and a node in no list is a ring of its own, so no link has a special case.
    next: Vec<usize>,
    prev: Vec<usize>,
    nodes: usize,
}

impl Model for Chains {
    ghost use Rattle.index_chains.specs.Lists.{Lists};
    ghost use Rattle.index_chains.specs.Rings.{rings, Keeps};

    ghost Value = { Lists };

    ghost view = { λ c. record { lists = rings c.next.items c.nodes; nodes = c.nodes } };

    ghost invariant = { λ c. Keeps c.next.items c.prev.items c.nodes (rings c.next.items c.nodes) };
}

// So many cells, each of them linked to itself.
fn lone_cells(alloc: Global, cells: usize) -> Result<Vec<usize>, AllocError>
    ensures long { IfOk result (λ links. length links.items ≡ cells) }
    ensures lone { IfOk result (λ links. (k : ℕ) → k < cells → slice_index links.items k ≡ k) }
{
    (0..cells).collect(alloc)
}

impl Chains {
    /// Empty lists for so many heads, and so many nodes that stand in none.
    pub fn new(alloc: Global, heads: u32, nodes: u32) -> Result<Chains, AllocError>
        ensures empty { IfOk result (λ made. made ≡ record { lists = replicate heads []; nodes = nodes }) }
        ensures unlinked { IfOk result (λ made. (node : ℕ) → ¬ IsLinked made.lists node) }
    {
        let nodes = nodes as usize;
        let cells = nodes + heads as usize;
        let next = lone_cells(alloc, cells)?;
        let prev = lone_cells(alloc, cells)?;
        Ok(Chains { next, prev, nodes })
    }

    // The node of a cell, or nothing for the cell of a head.
    fn node_at(&self, cell: usize) -> Option<u32>
        ensures { result ≡ (if nat_lt cell self.now.nodes then Some cell else None) }
    {
        if cell < self.nodes {
            Some(cell as u32)
        } else {
            None
        }
    }

    /// Puts a node first in the list of a head.
    pub fn push_front(&mut self, head: u32, node: u32)
        requires head_in_range { head < length self.old.lists }
        requires node_in_range { node < self.old.nodes }
        requires unlinked { ¬ IsLinked self.old.lists node }
        ensures front { self.new ≡ with_front self.old head node }
        ensures linked { IsLinked self.new.lists node }
        ensures others { LeavesOthers self.old self.new node }
    {
        let head = self.nodes + head as usize;
        let node = node as usize;
        let first = self.next[head];
        self.next[node] = first;
        self.prev[first] = node;
        self.next[head] = node;
        self.prev[node] = head;
    }

    /// Takes a node out of its list.
    pub fn unlink(&mut self, node: u32)
        requires node_in_range { node < self.old.nodes }
        requires linked { IsLinked self.old.lists node }
        ensures taken { self.new ≡ without self.old node }
        ensures unlinked { ¬ IsLinked self.new.lists node }
        ensures others { LeavesOthers self.old self.new node }
    {
        let node = node as usize;
        let before = self.prev[node];
        let after = self.next[node];
        self.next[before] = after;
        self.prev[after] = before;
        self.next[node] = node;
        self.prev[node] = node;
    }

    /// The first node of a head's list, or nothing where the list is empty.
    pub fn first(&self, head: u32) -> Option<u32>
        requires { head < length self.now.lists }
        ensures first { result ≡ slice_get (list_at self.now.lists head) 0 }
        ensures linked { IfSome result (IsLinked self.now.lists) }
        ensures in_range { IfSome result (λ node. node < self.now.nodes) }
    {
        self.node_at(self.next[self.nodes + head as usize])
    }

    /// The node behind this one in its list, or nothing where this one is the last or stands in no list.
    pub fn next(&self, node: u32) -> Option<u32>
        requires { node < self.now.nodes }
        ensures behind { (head place : ℕ) → Stands self.now.lists head place node →
            result ≡ slice_get (list_at self.now.lists head) (place + 1) }
        ensures unlinked { ¬ IsLinked self.now.lists node → result ≡ None }
        ensures linked { IfSome result (IsLinked self.now.lists) }
        ensures in_range { IfSome result (λ after. after < self.now.nodes) }
    {
        let cell = node as usize;
        let after = self.next[cell];
        if after == cell {
            None
        } else {
            self.node_at(after)
        }
    }

    /// Whether a node stands in a list.
    pub fn is_linked(&self, node: u32) -> bool
        requires { node < self.now.nodes }
        ensures linked { IsTrue result ↔ IsLinked self.now.lists node }
        ensures disjoint { IsDisjoint self.now }
    {
        let cell = node as usize;
        self.next[cell] != cell
    }
}
