// The instructions that were decoded, kept by their addresses.
ghost use Rattle.std.specs.Prelude.{◌≡◌, ℕ, List, Some, length, option_map, IfOk, IfSome, false};
ghost use Rattle.i386_code.specs.Reading.{decoded};
ghost use Rattle.i386_machine.specs.Known.{AllKnown};
ghost use Rattle.i386_machine.specs.Regions.{Region, shapes, writable, fetch};

use i386_code::{Decoded, Instr};
use std::alloc::{AllocError, Global};

/// How many are kept at most. An address has one slot: its remainder.
pub(crate) const SLOTS: usize = 4096;

/// An instruction, its address and its length.
#[derive(Clone, Copy)]
pub(crate) struct Known {
    at: u32,
    instr: Instr,
    size: u8,
}

/// Slots with nothing in them.
pub(crate) fn no_slots(alloc: Global, count: usize) -> Result<Vec<Option<Known>>, AllocError>
    ensures length { IfOk result (λ slots. length slots.items ≡ count) }
    ensures known { (m : List Region) → IfOk result (λ slots. AllKnown m slots.items) }
{
    vec![in alloc; None; count]
}

/// What is kept for an address.
pub(crate) fn known_at(slots: &[Option<Known>], at: u32) -> Option<Decoded>
    requires { length slots.now ≡ 4096 }
    ensures { (m : List Region) → AllKnown m slots.now → IfSome result (λ found. option_map decoded (fetch m at) ≡ Some found) }
{
    let slot = slots[at as usize % SLOTS];
    match slot {
        Some(known) if known.at == at => Some(Decoded::Is(known.instr, known.size)),
        _ => None,
    }
}

/// Keeps what was decoded at an address that no writable region has, in the place of what was in its slot.
pub(crate) fn keep(slots: &mut [Option<Known>], at: u32, found: Decoded)
    requires { length slots.old ≡ 4096 }
    ensures { (m : List Region) → AllKnown m slots.old → option_map decoded (fetch m at) ≡ Some found → writable (shapes m) at 1 ≡ false → AllKnown m slots.new }
{
    if let Decoded::Is(instr, size) = found {
        slots[at as usize % SLOTS] = Some(Known { at, instr, size });
    }
}
