// Moves of nodes between lists, each beside the lists that it has to leave, and known hashes of names.
ghost use Rattle.std.specs.Prelude.{◌≡◌, ◌<◌, length};

use crate::{Chains, symbol_hash};
use std::alloc::{AllocError, Global};
use std::process::Abort;
use std::test::Fail;

const HEADS: u32 = 2;

const NODES: u32 = 4;

#[derive(Clone, Copy)]
enum Move {
    Push(u32, u32),
    Unlink(u32),
    First(u32, u32),
}

// Moves the first node of a list to the front of another.
fn move_first(chains: &mut Chains, from: u32, to: u32)
    requires from_in_range { from < length chains.old.lists }
    requires to_in_range { to < length chains.old.lists }
    ensures heads { length chains.new.lists ≡ length chains.old.lists }
    ensures nodes { chains.new.nodes ≡ chains.old.nodes }
{
    if let Some(node) = chains.first(from) {
        chains.unlink(node);
        chains.push_front(to, node);
    }
}

fn make(rt: &impl Abort, chains: &mut Chains, step: Move)
    requires heads { length chains.old.lists ≡ HEADS }
    requires nodes { chains.old.nodes ≡ NODES }
    ensures heads { length chains.new.lists ≡ HEADS }
    ensures nodes { chains.new.nodes ≡ NODES }
{
    match step {
        Move::Push(head, node) => {
            assert!(rt; head < HEADS);
            assert!(rt; node < NODES);
            assert!(rt; !chains.is_linked(node));
            chains.push_front(head, node);
        }
        Move::Unlink(node) => {
            assert!(rt; node < NODES);
            assert!(rt; chains.is_linked(node));
            chains.unlink(node);
            assert_eq!(rt; chains.next(node), None);
        }
        Move::First(from, to) => {
            assert!(rt; from < HEADS);
            assert!(rt; to < HEADS);
            move_first(chains, from, to);
        }
    }
}

fn listed(alloc: Global, chains: &Chains, head: u32) -> Result<Vec<u32>, AllocError>
    requires { head < length chains.now.lists }
{
    let mut nodes = Vec::new(alloc);
    let mut at = chains.first(head);
    for _ in 0..=NODES {
        let Some(node) = at else {
            break;
        };
        nodes.push(node)?;
        at = chains.next(node);
    }
    Ok(nodes)
}

#[test]
fn moves_leave_the_lists(rt: HostRuntime) -> Result<(), Fail> {
    let moves = [
        (Move::Push(0, 3), [3].as_slice(), [].as_slice()),
        (Move::Push(0, 1), [1, 3].as_slice(), [].as_slice()),
        (Move::Unlink(3), [1].as_slice(), [].as_slice()),
        (Move::Push(1, 3), [1].as_slice(), [3].as_slice()),
        (Move::Push(1, 0), [1].as_slice(), [0, 3].as_slice()),
        (Move::Push(1, 2), [1].as_slice(), [2, 0, 3].as_slice()),
        (Move::Unlink(0), [1].as_slice(), [2, 3].as_slice()),
        (Move::Unlink(2), [1].as_slice(), [3].as_slice()),
        (Move::Unlink(1), [].as_slice(), [3].as_slice()),
        (Move::Push(0, 0), [0].as_slice(), [3].as_slice()),
        (Move::First(1, 0), [3, 0].as_slice(), [].as_slice()),
        (Move::First(0, 1), [0].as_slice(), [3].as_slice()),
    ];
    let mut chains = Chains::new(rt.alloc(), HEADS, NODES)?;
    for (step, zero, one) in moves {
        make(&rt, &mut chains, step);
        assert_eq!(rt; listed(rt.alloc(), &chains, 0)?.as_slice(), zero);
        assert_eq!(rt; listed(rt.alloc(), &chains, 1)?.as_slice(), one);
    }
    Ok(())
}

// The hashes are those that tools for ELF print.
#[test]
fn names_have_known_hashes(rt: HostRuntime) {
    let hashes = [
        ("", 0),
        ("main", 0x0007_37fe),
        ("exit", 0x0006_cf04),
        ("printf", 0x0779_05a6),
        ("syscall", 0x0b09_985c),
        ("flapenguin.me", 0x0398_7915),
    ];
    for (name, hash) in hashes {
        assert_eq!(rt; symbol_hash(name.as_bytes()), hash, "{name}");
    }
}
