// The blocks of a call's locals.
use block_mem::{BlockName, Memory};
use std::alloc::AllocError;

// A new block. The name of a local is that of no live block.
fn make(memory: &mut Memory, name: BlockName, size: u32) -> Result<(), AllocError> {
    if memory.is_live(name) {
        return Err(AllocError);
    }
    memory.alloc_block(name, size, true)
}

/// A block for each of a call's locals, of these sizes in bytes.
pub(crate) fn make_locals(
    memory: &mut Memory,
    activation: u64,
    sizes: &[u32],
) -> Result<(), AllocError> {
    for (index, size) in sizes.iter().enumerate() {
        let Ok(index) = u32::try_from(index) else {
            return Err(AllocError);
        };
        make(memory, BlockName::Local { activation, index }, *size)?;
    }
    Ok(())
}

/// The end of the blocks of a call that has so many.
pub(crate) fn end_locals(memory: &mut Memory, activation: u64, count: usize) {
    for index in 0..count {
        let Ok(index) = u32::try_from(index) else {
            return;
        };
        let name = BlockName::Local { activation, index };
        if memory.is_live(name) {
            memory.free_block(name);
        }
    }
}
