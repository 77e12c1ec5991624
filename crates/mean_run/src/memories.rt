// The blocks of a call's locals.
ghost use Rattle.std.specs.Prelude.{◌≡◌, true, OnOk};
ghost use Rattle.block_mem.specs.declared.value.BlockName.TheVariants.{Local};
ghost use Rattle.block_mem.specs.Blocks.{made, ended};
ghost use Rattle.clight_sem.specs.Turns.{with_locals, without_locals};

use block_mem::{BlockName, Memory};
use std::alloc::AllocError;

fn local(activation: u64, index: u32) -> BlockName
    ensures { result ≡ Local activation index }
{
    BlockName::Local { activation, index }
}

// A new block under this name, whether the name is in use or not.
fn make(memory: &mut Memory, name: BlockName, size: u32) -> Result<(), AllocError>
    ensures { OnOk result (memory.new ≡ made memory.old name size true) }
{
    end(memory, name);
    memory.alloc_block(name, size, true)
}

// The end of a block, where there is one of the name.
fn end(memory: &mut Memory, name: BlockName)
    ensures { memory.new ≡ ended memory.old name }
{
    if memory.is_live(name) {
        memory.free_block(name);
    }
}

/// The blocks of a call's locals, of these sizes.
pub fn make_locals(memory: &mut Memory, activation: u64, sizes: &[u32]) -> Result<(), AllocError>
    ensures { OnOk result (memory.new ≡ with_locals memory.old activation 0 sizes.now) }
{
    if sizes.len() > u32::MAX as usize {
        return Err(AllocError);
    }
    let mut index = 0;
    'sizes: for size in sizes {
        make(memory, local(activation, index), *size)?;
        index += 1;
    }
    Ok(())
}

/// The end of these blocks.
pub fn end_locals(memory: &mut Memory, activation: u64, sizes: &[u32]) -> Result<(), AllocError>
    ensures { OnOk result (memory.new ≡ without_locals memory.old activation 0 sizes.now) }
{
    if sizes.len() > u32::MAX as usize {
        return Err(AllocError);
    }
    let mut index = 0;
    'sizes: for size in sizes {
        let _size = *size;
        end(memory, local(activation, index));
        index += 1;
    }
    Ok(())
}
