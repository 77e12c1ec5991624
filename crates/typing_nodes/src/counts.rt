// Counts of nodes.
ghost use Rattle.std.specs.Prelude.{◌≡◌, ◌+◌};
ghost use Rattle.typing_nodes.specs.Nodes.{told_nodes};

/// The greatest count that is told. It stands for every count that is greater than 65,536.
pub const MOST: u32 = 65_537;

/// Two counts together, as far as they are told.
pub fn together(left: u32, right: u32) -> u32
    ensures { result ≡ told_nodes (left + right) }
{
    left.saturating_add(right).min(MOST)
}

/// A length as a count.
pub(crate) fn counted(length: usize) -> u32
    ensures { result ≡ told_nodes length }
{
    if length < MOST as usize {
        length as u32
    } else {
        MOST
    }
}
