// Where the sections of objects stand in memory.
ghost use Rattle.std.specs.Prelude.{◌≡◌, ◌+◌, ◌^◌, ◌<◌, ◌≤◌, length, IfOk, if◌then◌else◌};
ghost use Rattle.elf_linker.specs.Placement.{aligned, texts_end, whole_end, section_address};
ghost use Rattle.elf_linker.specs.LinkSteps.{AreTexts};

use crate::objects::Objects;
use elf_file::{END_ADDRESS, FIRST_ADDRESS};
use std::alloc::{AllocError, Global};

/// The section of an object that has its text.
pub(crate) const TEXT: u32 = 1;

/// How long a page is.
const PAGE: u32 = 4096;

// The first address from this one on that is a multiple of the alignment. An alignment of 0 counts as 1.
pub(crate) fn aligned(at: u64, align: u32) -> u64
    requires { at < 2 ^ 63 }
    ensures { result ≡ aligned align at }
{
    if align == 0 {
        return at;
    }
    let align = u64::from(align);
    (at + (align - 1)) / align * align
}

// Where all texts end.
fn texts_end(objects: &Objects<'_>) -> u64
    ensures end { result ≡ texts_end objects.now }
    ensures small { result < 2 ^ 62 }
{
    let mut at = u64::from(FIRST_ADDRESS);
    for number in 0..objects.len() {
        let view = objects.at(number);
        at = aligned(at, view.align(TEXT)) + u64::from(view.size(TEXT));
    }
    at
}

/// Where all sections end. Those without bytes stand behind the texts, from the next page on.
pub(crate) fn whole_end(objects: &Objects<'_>) -> u64
    ensures { result ≡ whole_end objects.now }
{
    aligned(texts_end(objects), PAGE)
}

/// The address of each object's text.
pub(crate) fn text_addresses(alloc: Global, objects: &Objects<'_>) -> Result<Vec<u32>, AllocError>
    requires { whole_end objects.now ≤ END_ADDRESS }
    ensures { IfOk result (λ texts. AreTexts objects.now texts.items) }
{
    let mut texts = Vec::with_capacity(alloc, objects.len() as usize)?;
    let mut at = u64::from(FIRST_ADDRESS);
    for number in 0..objects.len() {
        let view = objects.at(number);
        at = aligned(at, view.align(TEXT));
        texts.push(at as u32)?;
        at += u64::from(view.size(TEXT));
    }
    Ok(texts)
}
