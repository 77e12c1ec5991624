// The relocations of a unit's object.
ghost use Rattle.std.specs.Prelude.{◌≡◌, ◌+◌, ◌^◌, ◌<◌, ℕ, List, Some, None, map, length, if◌then◌else◌, OnOk, IfOk};
ghost use Rattle.std.specs.Str.{bytes_eq};
ghost use Rattle.second_code.specs.Parts.{number_in, reloc_of};
ghost use Rattle.second_code.specs.PartSteps.{bytes_of, use_of, found_at, or_later, number_or};

use crate::calls::CallSite;
use crate::text::TEXT;
use elf_file::{RelocKind, RelocPart, RelocParts};
use indexmap::IndexMap;
use std::alloc::{AllocError, Global};

/// The number of the symbol of each name.
pub type Numbers<'a> = IndexMap<&'a [u8], u32>;

// The number of a name.
fn look_up(numbers: &Numbers<'_>, name: &[u8]) -> Option<u32>
    ensures { result ≡ found_at numbers.now name.now }
{
    numbers.get(name).copied()
}

// Notes the number of a name that has none so far.
fn note<'a>(numbers: &mut Numbers<'a>, name: &'a [u8], number: u32) -> Result<(), AllocError>
    ensures { OnOk result ((other : List ℕ) → found_at numbers.new other ≡ or_later (found_at numbers.old other) (if bytes_eq name.now other then Some number else None)) }
{
    if look_up(numbers, name).is_some() {
        return Ok(());
    }
    numbers.insert(name, number)?;
    Ok(())
}

// The number of each of these names, counted from 1.
fn numbers<'a>(alloc: Global, names: &[&'a [u8]]) -> Result<Numbers<'a>, AllocError>
    requires { length names.now < 2 ^ 32 }
    ensures { IfOk result (λ numbers. (name : List ℕ) → number_or (found_at numbers name) (length names.now) ≡ number_in (bytes_of names.now) name) }
{
    let mut numbers = Numbers::new(alloc);
    let mut number = 0;
    for name in names {
        number += 1;
        note(&mut numbers, name, number)?;
    }
    Ok(numbers)
}

// The relocation of each call's word.
pub(crate) fn relocs(
    alloc: Global,
    names: &[&[u8]],
    calls: &[CallSite<'_>],
) -> Result<RelocParts, AllocError>
    requires { length names.now < 2 ^ 32 }
    ensures { IfOk result (λ relocs. relocs ≡ map (reloc_of (bytes_of names.now)) (map use_of calls.now)) }
{
    let count = names.len() as u32;
    let numbers = numbers(alloc, names)?;
    let mut relocs = RelocParts::new(alloc);
    for call in calls {
        let symbol = look_up(&numbers, call.callee).unwrap_or(count);
        relocs.push(RelocPart {
            section: TEXT,
            offset: call.place,
            symbol,
            kind: RelocKind::Rel,
        })?;
    }
    Ok(relocs)
}
