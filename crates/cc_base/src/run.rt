// What every run of every language and machine has: an outcome and acts.

/// How a run stands.
#[derive(Clone, Copy, Debug, PartialEq, Eq)]
pub enum Outcome {
    /// It takes further steps.
    Running,
    /// It has ended with this status.
    Ended(u8),
    /// It has done what has no meaning.
    Wrong,
    /// It needs more than the stack.
    Deep,
}

/// What a run does to the outside.
#[derive(Clone, Copy, Debug, PartialEq, Eq)]
pub enum Act {
    /// A byte of the input was taken.
    Took,
    /// A byte was asked for, and none was left.
    AtEnd,
    /// This byte was emitted.
    Gave(u8),
}
