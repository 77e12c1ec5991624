// The image of objects.
ghost use Rattle.std.specs.Prelude.{◌≡◌, ◌≢◌, ◌^◌, ◌<◌, Some, None, IfOk, IfErr, length, [], ◌∷◌, true, codes};
ghost use Rattle.elf_file.specs.Image.{WellFormedImage};
ghost use Rattle.elf_linker.specs.Linked.{Linked};
ghost use Rattle.elf_linker.specs.Names.{link_fault, is_defined, all_symbols, too_long};
ghost use Rattle.elf_linker.specs.Placement.{texts_end};
ghost use Rattle.elf_linker.specs.Runtime.{with_runtime};
ghost use Rattle.elf_linker.specs.LinkSteps.{AreAnswered, AreNoted, AreObjects, HasRuntime};
ghost use Rattle.elf_linker.specs.declared.fault.LinkFault.{LinkFault};

use crate::addresses::Addresses;
use crate::definitions::{Definitions, definitions};
use crate::fault::LinkFault;
use crate::inputs::Inputs;
use crate::objects::Objects;
use crate::placement::{text_addresses, whole_end};
use crate::relocating::code;
use crate::runtime::runtime_parts;
use crate::uses::{find_all_uses, measure_all_uses};
use cc_base::Bytes;
use elf_file::{
    END_ADDRESS, ElfFault, FIRST_ADDRESS, ImageParts, SegmentPart, SegmentParts, read_object,
    write_object,
};
use std::alloc::{AllocError, Global};

/// The rights of text: to read and to execute.
const TEXT_FLAGS: u32 = 5;

// The image of this code, which is executed from the entry.
fn image(alloc: Global, entry: u32, code: Vec<u8>) -> Result<ImageParts, AllocError>
    requires { length code.items < 2 ^ 32 }
    ensures { IfOk result (λ image. image ≡ record { entry = entry; segments = record { start = FIRST_ADDRESS; flags = 5; size = length code.items; bytes = code.items } ∷ [] }) }
{
    let mut segments = SegmentParts::new(alloc);
    segments.push(SegmentPart {
        start: FIRST_ADDRESS,
        flags: TEXT_FLAGS,
        size: code.len() as u32,
        bytes: Bytes::from_vec(code),
    })?;
    Ok(ImageParts { entry, segments })
}

// Places the texts of these objects and relocates them.
fn place(
    alloc: Global,
    objects: &Objects<'_>,
    definitions: &Definitions<'_>,
) -> Result<ImageParts, LinkFault>
    requires are { AreObjects objects.now }
    requires noted { AreNoted objects.now (all_symbols objects.now) definitions.now }
    requires answered { AreAnswered objects.now }
    requires start { is_defined objects.now (codes "_start") ≡ true }
    requires some { FIRST_ADDRESS < texts_end objects.now }
    ensures linked { IfOk result (λ image. Linked objects.now image) }
    ensures well_formed { IfOk result (λ image. WellFormedImage image) }
    ensures none { IfOk result (λ _. too_long objects.now ≡ None) }
    ensures fault { IfErr result (λ fault. fault ≢ LinkFault.Memory → too_long objects.now ≡ Some fault) }
{
    let end = whole_end(objects);
    if end > END_ADDRESS {
        return Err(LinkFault::Range { end });
    }
    let texts = text_addresses(alloc, objects)?;
    let addresses = Addresses::new(objects, definitions, texts.as_slice(), end as u32);
    let size = (end as u32 - FIRST_ADDRESS) as usize;
    let code = code(alloc, &addresses, size)?;
    Ok(image(alloc, addresses.entry(), code)?)
}

// Links the objects of an image.
fn link_all(alloc: Global, objects: &Objects<'_>) -> Result<ImageParts, LinkFault>
    requires are { AreObjects objects.now }
    requires runtime { HasRuntime objects.now }
    ensures linked { IfOk result (λ image. Linked objects.now image) }
    ensures no_fault { IfOk result (λ _. link_fault objects.now ≡ None) }
    ensures well_formed { IfOk result (λ image. WellFormedImage image) }
    ensures fault { IfErr result (λ fault. fault ≢ LinkFault.Memory → link_fault objects.now ≡ Some fault) }
{
    let definitions = definitions(alloc, objects)?;
    find_all_uses(&definitions, objects)?;
    measure_all_uses(&definitions, objects)?;
    place(alloc, objects, &definitions)
}

/// Links objects in their order, the runtime behind them, to an image.
pub fn link(alloc: Global, objects: &Inputs<'_>) -> Result<ImageParts, LinkFault>
    // The image holds what is linked from the objects, and nothing is wrong with them.
    ensures linked { IfOk result (λ image. Linked (with_runtime objects.now) image) }
    ensures no_fault { IfOk result (λ _. link_fault (with_runtime objects.now) ≡ None) }
    // It may be written.
    ensures well_formed { IfOk result (λ image. WellFormedImage image) }
    // Want of memory apart, the fault is what is wrong with the objects.
    ensures fault { IfErr result (λ fault. fault ≢ LinkFault.Memory → link_fault (with_runtime objects.now) ≡ Some fault) }
{
    let parts = runtime_parts(alloc)?;
    let file = write_object(alloc, &parts)?;
    let runtime = match read_object(alloc, file.as_slice()) {
        Ok(runtime) => runtime,
        Err(ElfFault::Form) => unreachable!(),
        Err(ElfFault::Memory) => return Err(LinkFault::Memory),
    };
    link_all(alloc, &Objects::new(objects.as_slice(), &runtime))
}
