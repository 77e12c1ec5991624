// Memory as a program starts.
ghost use Rattle.std.specs.Prelude.{◌≡◌, ◌+◌, ◌<◌, ◌≤◌, ◌^◌, length, get_or, OnOk, IfOk};
ghost use Rattle.block_mem.specs.Blocks.{made, ended, first};
ghost use Rattle.block_mem.specs.Start.{start, meant, blocks_of_unit};
ghost use Rattle.clight_sem.specs.Functions.{all_parts, parts_of};
ghost use Rattle.mean_start.specs.Linkages.{IsLinkage, IsOwn};
ghost use Rattle.mean_start.specs.Making.{with_block, zeros_behind, size_in, part_of, pointed, all_pointed, object_made, with_blocks};

use crate::linkage::Linkage;
use crate::objects::{is_shared_block, meant};
use crate::own::{Own, own_of};
use block_mem::{BlockName, Byte, Memory};
use cc_base::{GlobalPart, WordUse};
use std::alloc::{AllocError, Global};

// Ends a block, where there is one of the name.
fn end(memory: &mut Memory, name: BlockName)
    ensures { memory.new ≡ ended memory.old name }
{
    if memory.is_live(name) {
        memory.free_block(name);
    }
}

// A new block under this name, whether the name is in use or not.
fn make(memory: &mut Memory, name: BlockName, size: u32, writable: bool) -> Result<(), AllocError>
    ensures { OnOk result (memory.new ≡ made memory.old name size writable) }
{
    end(memory, name);
    memory.alloc_block(name, size, writable)
}

// The byte at a place, and 0 behind the end.
fn byte_or_zero(bytes: &[u8], place: u32) -> u8
    ensures { result ≡ get_or bytes.now place 0 }
{
    match bytes.get(place as usize) {
        Some(byte) => *byte,
        None => 0,
    }
}

// A new block of these bytes, with zeros behind them up to its size.
fn make_filled(
    memory: &mut Memory,
    name: BlockName,
    bytes: &[u8],
    size: u32,
    writable: bool,
) -> Result<(), AllocError>
    requires fit { length bytes.now ≤ size }
    ensures { OnOk result (memory.new ≡ with_block memory.old name (zeros_behind bytes.now size) writable) }
{
    make(memory, name, size, writable)?;
    'places: for place in 0..size {
        let byte = byte_or_zero(bytes, place);
        memory.set_first(name, place, Byte::Plain(byte));
    }
    Ok(())
}

// Puts a byte, where its place is inside the block.
fn put(memory: &mut Memory, name: BlockName, size: u32, place: u64, byte: Byte)
    requires size { size_in memory.old name ≡ size }
    ensures put { memory.new ≡ first memory.old name place byte }
    ensures size { size_in memory.new name ≡ size }
{
    if place < u64::from(size) {
        memory.set_first(name, place as u32, byte);
    }
}

// A part of an initial pointer, which is unset where its name means no object.
fn part(meant: Option<BlockName>, plus: u32, which: u8) -> Byte
    ensures { result ≡ part_of meant plus which }
{
    match meant {
        Some(block) => Byte::Part {
            block,
            offset: plus,
            which,
        },
        None => Byte::Unset,
    }
}

// Puts an initial pointer.
fn put_pointer(
    memory: &mut Memory,
    name: BlockName,
    size: u32,
    word: &WordUse,
    meant: Option<BlockName>,
)
    requires size { size_in memory.old name ≡ size }
    ensures put { memory.new ≡ pointed memory.old name word.now.offset word.now.plus meant }
    ensures size { size_in memory.new name ≡ size }
{
    let place = u64::from(word.offset);
    put(memory, name, size, place, part(meant, word.plus, 0));
    put(memory, name, size, place + 1, part(meant, word.plus, 1));
    put(memory, name, size, place + 2, part(meant, word.plus, 2));
    put(memory, name, size, place + 3, part(meant, word.plus, 3));
}

// Puts the initial pointers of an object of this unit.
fn put_pointers(
    memory: &mut Memory,
    name: BlockName,
    size: u32,
    words: &[WordUse],
    linkage: &Linkage<'_>,
    own: &Own<'_>,
)
    requires linkage { IsLinkage linkage.now }
    requires own { IsOwn own.now }
    requires size { size_in memory.old name ≡ size }
    ensures { memory.new ≡ all_pointed (meant (all_parts linkage.now.units.now) own.now.number (parts_of own.now.unit.now)) name words.now memory.old }
{
    'words: for word in words {
        let block = meant(linkage, own, word.name.as_slice());
        put_pointer(memory, name, size, word, block);
    }
}

// The block of an object, where it is one. It is as large as its bytes need, where they are more than its size.
fn make_object(
    memory: &mut Memory,
    linkage: &Linkage<'_>,
    own: &Own<'_>,
    index: u32,
    object: &GlobalPart,
) -> Result<(), AllocError>
    requires linkage { IsLinkage linkage.now }
    requires own { IsOwn own.now }
    ensures { OnOk result (memory.new ≡ object_made (all_parts linkage.now.units.now) own.now.number (parts_of own.now.unit.now) index object.now memory.old) }
{
    let name = BlockName::Global {
        unit: own.number,
        index,
    };
    if object.shared {
        if is_shared_block(linkage, own.number, index, object.name.as_slice()) {
            make_filled(memory, name, &[], object.size, true)?;
        }
        return Ok(());
    }
    let bytes = object.bytes.as_slice();
    let Ok(count) = u32::try_from(bytes.len()) else {
        return Err(AllocError);
    };
    let size = object.size.max(count);
    make_filled(memory, name, bytes, size, object.writable)?;
    let words = object.uses.as_slice();
    put_pointers(memory, name, size, words, linkage, own);
    Ok(())
}

// The blocks of a unit's objects, from the last one on, so that memory is always that of the objects behind the next one.
fn make_objects(memory: &mut Memory, linkage: &Linkage<'_>, own: &Own<'_>) -> Result<(), AllocError>
    requires linkage { IsLinkage linkage.now }
    requires own { IsOwn own.now }
    ensures { OnOk result (memory.new ≡ with_blocks (blocks_of_unit (all_parts linkage.now.units.now) own.now.number (parts_of own.now.unit.now) 0 own.now.unit.now.globals) memory.old) }
{
    let objects = own.unit.globals.as_slice();
    let mut index = objects.len();
    'objects: while index > 0 {
        index -= 1;
        make_object(memory, linkage, own, index as u32, &objects[index])?;
    }
    Ok(())
}

/// Memory as a program of these units starts: the objects of all of them, with their initial bytes and pointers.
pub fn start_memory(alloc: Global, linkage: &Linkage<'_>) -> Result<Memory, AllocError>
    requires linkage { IsLinkage linkage.now }
    ensures { IfOk result (λ memory. memory ≡ start (all_parts linkage.now.units.now)) }
{
    let units = linkage.units;
    let mut memory = Memory::new(alloc)?;
    let mut number = units.len();
    'units: while number > 0 {
        number -= 1;
        let own = own_of(alloc, number as u32, &units[number])?;
        make_objects(&mut memory, linkage, &own)?;
    }
    Ok(memory)
}
