// The lists of live temporaries.
ghost use Rattle.std.specs.Prelude.{◌≡◌, ℕ, ◌<◌, ◌+◌, List, length, IfOk};
ghost use Rattle.flow_walks.specs.Lists.{list_of, IsExact, Closed};
ghost use Rattle.rtl_lang.specs.Routines.{routine};
ghost use Rattle.bit_rows.specs.Rows.{height};
ghost use Rattle.reg_live.specs.Sweeps.{Listed};

use crate::flows::width;
use crate::sweeps::settle;
use bit_rows::BitRows;
use rtl_lang::{RtlFn, RtlParts};
use sqlite_items::Items;
use std::alloc::{AllocError, Global};
use std::marker::Model;

/// The temporaries that are live after each place of a function, by their numbers, in rising order.
///
/// The places are the nodes, and the entry behind the last node. Contracts see a list for each place.
#[derive(Drop)]
pub struct Lives {
    lists: Items<Items<u32>>,
}

impl Model for Lives {
    ghost Value = { List (List ℕ) };

    ghost view = { λ l. l.lists };
}

impl Lives {
    /// How many places there are: one more than there are nodes.
    pub fn places(&self) -> usize
        ensures { result ≡ length self.now }
    {
        self.lists.len()
    }

    /// Those that are live after a place.
    pub fn after(&self, place: usize) -> &[u32]
        requires { place < length self.now }
        ensures { result.now ≡ list_of self.now place }
    {
        match self.lists.get(place) {
            Some(list) => list.as_slice(),
            None => &[],
        }
    }
}

// The members of each row.
fn list_rows(alloc: Global, rows: &BitRows, places: usize) -> Result<Items<Items<u32>>, AllocError>
    requires { places ≡ height rows.now }
    ensures { IfOk result (λ lists. Listed rows.now places lists) }
{
    let mut lists = Items::new(alloc);
    for place in 0..places {
        let members = rows.members(alloc, place)?;
        lists.push(Items::from_vec(members))?;
    }
    Ok(lists)
}

// The same of what a function is made of.
pub(crate) fn lives_of(alloc: Global, parts: &RtlParts) -> Result<Lives, AllocError>
    ensures exact { IfOk result (λ lives. IsExact (routine parts.now) lives) }
    ensures closed { IfOk result (λ lives. Closed (routine parts.now) lives) }
{
    let Some(places) = parts.graph.len().checked_add(1) else {
        return Err(AllocError);
    };
    let mut rows = BitRows::new(alloc, places, width(parts))?;
    settle(parts, &mut rows, places);
    let lists = list_rows(alloc, &rows, places)?;
    Ok(Lives { lists })
}

/// The temporaries that are live after each node of a function and after its entry: those that some walk from there reads before it
/// writes them.
///
/// Takes one bit for each node and each temporary that is read, beside the result, and as many sweeps over the nodes as loops are
/// nested, and two more.
///
/// # Errors
///
/// Memory may run out.
pub fn live(alloc: Global, function: &RtlFn) -> Result<Lives, AllocError>
    ensures exact { IfOk result (λ lives. IsExact (routine function.now) lives) }
    ensures closed { IfOk result (λ lives. Closed (routine function.now) lives) }
{
    lives_of(alloc, function.parts())
}
