// The lives of a straight function and of a loop, beside what they are by hand.
use crate::lives::lives_of;
use block_mem::Op;
use rtl_lang::{RtlNode, RtlParts};
use sqlite_items::Items;
use std::alloc::{AllocError, Global};
use std::test::Fail;

fn function(alloc: Global, entry: u32, graph: Vec<RtlNode>) -> Result<RtlParts, AllocError> {
    Ok(RtlParts {
        symbol: 0,
        is_static: false,
        parameters: 3,
        temporaries: 3,
        locals: Items::new(alloc),
        need: 64,
        entry,
        graph: Items::from_vec(graph),
    })
}

fn sum(left: u32, right: u32, to: u32, next: u32) -> RtlNode {
    RtlNode::Apply {
        op: Op::Add,
        left,
        right,
        to,
        next,
    }
}

#[test]
fn a_node_that_writes_what_it_reads(rt: HostRuntime) -> Result<(), Fail> {
    let mut graph = Vec::new(rt.alloc());
    graph.push(RtlNode::Return { value: Some(0) })?;
    graph.push(sum(0, 1, 0, 0))?;
    graph.push(sum(0, 2, 1, 1))?;
    let function = function(rt.alloc(), 2, graph)?;
    let lives = lives_of(rt.alloc(), &function)?;
    let expected = [
        [].as_slice(),
        [0].as_slice(),
        [0, 1].as_slice(),
        [0, 2].as_slice(),
    ];
    assert_eq!(rt; lives.places(), expected.len());
    for (place, list) in expected.into_iter().enumerate() {
        assert!(rt; place < lives.places());
        assert_eq!(rt; lives.after(place), list);
    }
    Ok(())
}

// Behind the node that reads temporary 2, just the way back to the loop's head leads to a node that reads it.
#[test]
fn round_a_loop(rt: HostRuntime) -> Result<(), Fail> {
    let mut graph = Vec::new(rt.alloc());
    graph.push(RtlNode::Return { value: None })?;
    graph.push(RtlNode::Nop { next: 3 })?;
    graph.push(RtlNode::Branch {
        on: 0,
        yes: 1,
        no: 0,
    })?;
    graph.push(sum(1, 2, 0, 2))?;
    let function = function(rt.alloc(), 1, graph)?;
    let lives = lives_of(rt.alloc(), &function)?;
    let expected = [
        [].as_slice(),
        [1, 2].as_slice(),
        [1, 2].as_slice(),
        [0, 1, 2].as_slice(),
        [1, 2].as_slice(),
    ];
    assert_eq!(rt; lives.places(), expected.len());
    for (place, list) in expected.into_iter().enumerate() {
        assert!(rt; place < lives.places());
        assert_eq!(rt; lives.after(place), list);
    }
    Ok(())
}
