// Sweeps over the rows, until nothing changes.
ghost use Rattle.std.specs.Prelude.{◌≡◌, ℕ, ◌<◌, ◌≤◌, List, false, true, length};
ghost use Rattle.std.specs.List.{Contains};
ghost use Rattle.std.specs.Option.{option_to_list};
ghost use Rattle.flow_walks.specs.Flows.{places};
ghost use Rattle.rtl_lang.specs.Routines.{flow_of, routine};
ghost use Rattle.bit_rows.specs.Rows.{height, has};
ghost use Rattle.reg_live.specs.Sweeps.{Fits, IsSound, IsSettled, Adds, InRow, Unwritten, AskedInRow, AskedOfAny, Moves, AreBelow};

use crate::flows::{behind, read_by, written};
use bit_rows::BitRows;
use rtl_lang::{RtlNode, RtlParts};

// The calls below add to the row of a place, and say whether anything changed.

fn insert_if(rows: &mut BitRows, place: usize, temporary: Option<u32>) -> bool
    requires row { place < height rows.old }
    requires bits { AreBelow rows.old.width (option_to_list temporary) }
    ensures { Adds (InRow place (option_to_list temporary)) rows.old rows.new result }
{
    match temporary {
        Some(temporary) => rows.insert(place, temporary as usize),
        None => false,
    }
}

fn insert_all(rows: &mut BitRows, place: usize, temporaries: &[u32]) -> bool
    requires row { place < height rows.old }
    requires bits { AreBelow rows.old.width temporaries.now }
    ensures { Adds (InRow place temporaries.now) rows.old rows.new result }
{
    let mut changed = false;
    for temporary in temporaries {
        let inserted = rows.insert(place, *temporary as usize);
        changed |= inserted;
    }
    changed
}

// What the node reads.
fn insert_reads(rows: &mut BitRows, place: usize, node: &RtlNode) -> bool
    requires row { place < height rows.old }
    requires bits { AreBelow rows.old.width (flow_of node.now).reads }
    ensures { Adds (InRow place (flow_of node.now).reads) rows.old rows.new result }
{
    let reads = read_by(node);
    let left = insert_if(rows, place, reads.left);
    let right = insert_if(rows, place, reads.right);
    let arguments = insert_all(rows, place, reads.arguments);
    left | right | arguments
}

// What is in the row of the node of this number and the node does not write.
fn join_unwritten(rows: &mut BitRows, place: usize, number: usize, node: &RtlNode) -> bool
    requires row { place < height rows.old }
    requires number { number < height rows.old }
    ensures { Adds (Unwritten rows.old place number (flow_of node.now).writes) rows.old rows.new result }
{
    match written(node) {
        Some(to) => rows.join_but(place, number, to as usize),
        None => rows.join(place, number),
    }
}

// All that is asked at the node of this number.
fn take_asked(function: &RtlParts, rows: &mut BitRows, place: usize, number: usize) -> bool
    requires fits { Fits (routine function.now) rows.old }
    requires row { place < height rows.old }
    ensures { Adds (AskedInRow (routine function.now) rows.old place number) rows.old rows.new result }
{
    match function.graph.get(number) {
        Some(node) => {
            let joined = join_unwritten(rows, place, number, node);
            let read = insert_reads(rows, place, node);
            joined | read
        }
        None => false,
    }
}

fn take_if(function: &RtlParts, rows: &mut BitRows, place: usize, number: Option<u32>) -> bool
    requires fits { Fits (routine function.now) rows.old }
    requires row { place < height rows.old }
    ensures { Adds (AskedOfAny (routine function.now) rows.old place (option_to_list number)) rows.old rows.new result }
{
    match number {
        Some(number) => take_asked(function, rows, place, number as usize),
        None => false,
    }
}

// All that is asked at nodes that follow the place.
fn gather(function: &RtlParts, rows: &mut BitRows, place: usize) -> bool
    requires fits { Fits (routine function.now) rows.old }
    requires row { place < height rows.old }
    ensures moves { Moves (routine function.now) rows.old rows.new result }
    ensures settled { result ≡ false → IsSettled (routine function.now) rows.new place }
{
    let followers = behind(function, place);
    let first = take_if(function, rows, place, followers.first);
    let second = take_if(function, rows, place, followers.second);
    first | second
}

// One sweep over all places. Nodes mostly have higher numbers than those that follow them, so rows come behind those that they need.
fn sweep(function: &RtlParts, rows: &mut BitRows, places: usize) -> bool
    requires fits { Fits (routine function.now) rows.old }
    requires all { places ≡ height rows.old }
    ensures moves { Moves (routine function.now) rows.old rows.new result }
    ensures settled { result ≡ false → (n : ℕ) → n < places → IsSettled (routine function.now) rows.new n }
{
    let mut changed = false;
    for place in 0..places {
        let gathered = gather(function, rows, place);
        changed |= gathered;
    }
    changed
}

// Sweeps until nothing changes.
pub fn settle(function: &RtlParts, rows: &mut BitRows, places: usize)
    requires fits { Fits (routine function.now) rows.old }
    requires all { places ≡ height rows.old }
    ensures high { height rows.new ≡ height rows.old }
    ensures sound { IsSound (routine function.now) rows.old → IsSound (routine function.now) rows.new }
    ensures settled { (n : ℕ) → n < places → IsSettled (routine function.now) rows.new n }
{
    loop {
        let changed = sweep(function, rows, places);
        if !changed {
            return;
        }
    }
}
