// A run of linked units that goes on.
ghost use Rattle.std.specs.Prelude.{◌≡◌, ◌∷◌};
ghost use Rattle.clight_sem.specs.States.{needs};
ghost use Rattle.mean_run.specs.Frames.{frame_of, frames_of};

use crate::frame::Frame;
use block_mem::Memory;
use clight_sem::Destination;
use sqlite_items::Items;
use std::alloc::Global;

/// A run of linked units that goes on.
#[derive(Drop)]
pub struct Process<'u> {
    pub alloc: Global,
    pub memory: Memory,
    /// How many calls were made.
    pub calls: u64,
    /// The newest active call.
    pub top: Frame<'u>,
    /// The calls below it, the newest last.
    pub below: Items<Frame<'u>>,
    /// The stack that all active calls need, in bytes: a running number, so that a call need not go over those below it.
    pub needed: u32,
    ghost counted: { needed ≡ needs (frame_of top ∷ frames_of below) },
}

/// How a run is over.
#[derive(Clone, Copy, Debug, PartialEq, Eq)]
pub enum Final {
    /// `main` returned: the status.
    Ended(u8),
    Wrong,
    Deep,
}

/// What a turn has left to be done with the outside.
#[derive(Clone, Copy)]
pub enum Pending {
    /// Nothing: the run goes on.
    Nothing,
    /// A byte is asked for, and goes there. -1 is there already, for the case that none is left.
    Byte(Destination),
    /// This byte is emitted.
    Give(u8),
    /// Nothing: the run is over.
    End(Final),
}
