// The machine of an image.
ghost use Rattle.std.specs.Prelude.{◌≡◌, ◌≢◌, ◌++◌, ◌<◌, ◌∷◌, [], Some, None, IfOk, IfErr, OnOk, length, map};
ghost use Rattle.elf_file.specs.ImageView.{segment_of, SegmentFits, SegmentsApart};
ghost use Rattle.i386_machine.specs.Regions.{shapes, ApartFrom};
ghost use Rattle.elf_loader.specs.Load.{loaded, load_fault, first_outside, without_entry, leaves as segment_leaves, has_entry as segment_has_entry, is_executable as segment_is_executable, is_writable as segment_is_writable, region_of};
ghost use Rattle.elf_loader.specs.Places.{segment_shape, stack_shape, AllInside};
ghost use Rattle.elf_loader.specs.declared.fault.LoadFault.{LoadFault};

use crate::fault::LoadFault;
use elf_file::{END_ADDRESS, FILE_ADDRESS, ImageView};
use i386_machine::Machine;
use std::alloc::{AllocError, Global};

/// How many bytes the stack has.
const STACK: u32 = 1_048_576;

/// The machine that is about to run the image.
pub fn load(alloc: Global, image: &ImageView<'_>) -> Result<Machine, LoadFault>
    // The machine is the image's at its start, and nothing is wrong with the image.
    ensures ok { IfOk result (λ machine. (machine ≡ loaded image.now) × (load_fault image.now ≡ None)) }
    // Want of memory apart, the fault is what is wrong with the image.
    ensures err { IfErr result (λ fault. fault ≢ LoadFault.Memory → load_fault image.now ≡ Some fault) }
{
    image.has_segments_apart();
    check_segments(image)?;
    check_entry(image)?;
    let mut machine = Machine::new(alloc, image.entry(), STACK)?;
    add_segments(&mut machine, image)?;
    Ok(machine)
}

// Whether a segment may be executed.
fn is_executable(image: &ImageView<'_>, index: u32) -> bool
    requires { index < length image.now.segments }
    ensures { result ≡ segment_is_executable (segment_of image.now index) }
{
    image.segment_flags(index) % 2 == 1
}

// Whether a segment may be written.
fn is_writable(image: &ImageView<'_>, index: u32) -> bool
    requires { index < length image.now.segments }
    ensures { result ≡ segment_is_writable (segment_of image.now index) }
{
    image.segment_flags(index) / 2 % 2 == 1
}

// Whether a segment leaves the addresses of images.
fn leaves(image: &ImageView<'_>, index: u32) -> bool
    requires { index < length image.now.segments }
    ensures { result ≡ segment_leaves (segment_of image.now index) }
{
    let start = image.segment_start(index);
    let end = u64::from(start) + u64::from(image.segment_size(index));
    start < FILE_ADDRESS || END_ADDRESS < end
}

// Finds the first segment that leaves the addresses of images.
fn check_segments(image: &ImageView<'_>) -> Result<(), LoadFault>
    ensures ok { IfOk result (λ _. first_outside image.now ≡ None) }
    ensures inside { IfOk result (λ _. AllInside image.now) }
    ensures err { IfErr result (λ fault. first_outside image.now ≡ Some fault) }
{
    for index in 0..image.segments() {
        if leaves(image, index) {
            return Err(LoadFault::Segment { index });
        }
    }
    Ok(())
}

// Whether a segment is executable and has the entry.
fn has_entry(image: &ImageView<'_>, index: u32) -> bool
    requires { index < length image.now.segments }
    ensures { result ≡ segment_has_entry image.now.entry (segment_of image.now index) }
{
    let entry = image.entry();
    let start = image.segment_start(index);
    let end = u64::from(start) + u64::from(image.segment_size(index));
    is_executable(image, index) && start <= entry && u64::from(entry) < end
}

// Finds an executable segment that has the entry.
fn check_entry(image: &ImageView<'_>) -> Result<(), LoadFault>
    ensures ok { IfOk result (λ _. without_entry image.now ≡ None) }
    ensures err { IfErr result (λ fault. without_entry image.now ≡ Some fault) }
{
    for index in 0..image.segments() {
        if has_entry(image, index) {
            return Ok(());
        }
    }
    Err(LoadFault::Entry)
}

// Adds the region of a segment.
fn add_segment(machine: &mut Machine, image: &ImageView<'_>, index: u32) -> Result<(), AllocError>
    requires there { index < length image.now.segments }
    requires fits { SegmentFits (segment_of image.now index) }
    requires apart { ApartFrom (segment_shape (segment_of image.now index)) (shapes machine.old.regions) }
    ensures ok { OnOk result (machine.new ≡ record machine.old { regions = machine.old.regions ++ region_of (segment_of image.now index) ∷ [] }) }
    ensures shape { OnOk result (shapes machine.new.regions ≡ shapes machine.old.regions ++ segment_shape (segment_of image.now index) ∷ []) }
{
    machine.add_region(
        image.segment_start(index),
        image.segment_bytes(index),
        image.segment_size(index),
        is_writable(image, index),
        is_executable(image, index),
    )
}

// Adds the regions of all segments to a machine that has a stack.
fn add_segments(machine: &mut Machine, image: &ImageView<'_>) -> Result<(), AllocError>
    requires apart { SegmentsApart image.now }
    requires inside { AllInside image.now }
    requires stack { shapes machine.old.regions ≡ stack_shape ∷ [] }
    ensures { OnOk result (machine.new ≡ record machine.old { regions = machine.old.regions ++ map region_of image.now.segments }) }
{
    for index in 0..image.segments() {
        add_segment(machine, image, index)?;
    }
    Ok(())
}
