// What is seen of a step and of a run.

/// Why there is no step. The causes are tried in this order.
#[derive(Clone, Copy, Debug, PartialEq, Eq)]
pub enum Cause {
    /// eip lies in no executable region.
    Fetch,
    /// No prefix of the bytes at eip spells an instruction.
    Decode,
    /// An access at this address does not lie in one region with the right that it needs.
    Access { address: u32 },
    /// A division by 0, or one whose quotient does not fit.
    Divide,
    /// A condition on flags that are unknown.
    Flags,
    /// A use of `int` other than the three system calls.
    System,
}

/// Whether a machine runs. One that has ended or is stuck stays so.
#[derive(Clone, Copy, Debug, PartialEq, Eq)]
pub enum Standing {
    Running,
    Ended(u8),
    Stuck(Cause),
}

/// What is seen of a step.
#[derive(Clone, Copy, Debug, PartialEq, Eq)]
pub enum Event {
    /// Nothing outside the machine.
    On,
    /// The next byte of the input was taken.
    Took,
    /// A byte was asked for, and none was left.
    AtEnd,
    /// This byte was emitted.
    Gave(u8),
    /// The machine has ended with this status.
    Ended(u8),
    /// There is no step.
    Stuck(Cause),
}

/// What a run comes to.
#[derive(Clone, Copy, Debug, PartialEq, Eq)]
pub enum RunEnd {
    /// The machine has ended with this status.
    Ended(u8),
    /// It still runs after all its steps.
    Spent,
    /// It has no step at eip.
    Stuck { eip: u32, cause: Cause },
    /// The source failed.
    Read,
    /// The sink failed.
    Write,
    /// The sink wanted memory.
    Memory,
}
