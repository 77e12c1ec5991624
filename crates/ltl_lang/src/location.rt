// Locations.

/// Where the value of a temporary is kept: in one of the four registers that a callee keeps for its caller (i386 supplement,
/// section 3, "Registers and the Stack Frame"), or in a slot of the frame, a word of the stack.
#[derive(Clone, Copy, Debug, PartialEq, Eq)]
pub enum Loc {
    Ebx,
    Esi,
    Edi,
    Ebp,
    /// The slot of this number, counted from 0.
    Slot(u32),
}
