// Where the functions of a unit stand in its text.
ghost use Rattle.std.specs.Prelude.{◌≡◌, ◌+◌, ◌^◌, ◌<◌, ℕ, List, [], ◌∷◌, Some, None, length, if◌then◌else◌, OnOk, IfOk};
ghost use Rattle.std.specs.Str.{bytes_eq};
ghost use Rattle.second_code.specs.Parts.{body_of, body_size, text_of, definition_from};
ghost use Rattle.second_code.specs.PartSteps.{found_at, or_later};

use crate::text::body_size;
use indexmap::IndexMap;
use second_form::Item;
use std::alloc::{AllocError, Global};

/// Where a function stands in text.
#[derive(Clone, Copy, Drop)]
pub struct Definition {
    /// Whether it is static.
    pub local: bool,
    /// The place of its first byte, counted from 0.
    pub begin: u32,
    /// How many bytes it has.
    pub extent: u32,
}

/// The first definition of each name.
pub type Definitions<'a> = IndexMap<&'a [u8], Definition>;

// The definition of a name.
pub(crate) fn look_up(definitions: &Definitions<'_>, name: &[u8]) -> Option<Definition>
    ensures { result ≡ found_at definitions.now name.now }
{
    definitions.get(name).copied()
}

// Notes a definition of a name that has none so far.
fn note<'a>(
    definitions: &mut Definitions<'a>,
    name: &'a [u8],
    definition: Definition,
) -> Result<(), AllocError>
    ensures { OnOk result ((other : List ℕ) → found_at definitions.new other ≡ or_later (found_at definitions.old other) (if bytes_eq name.now other then Some definition else None)) }
{
    if look_up(definitions, name).is_some() {
        return Ok(());
    }
    definitions.insert(name, definition)?;
    Ok(())
}

// Notes what an item defines whose code begins here, and gives where it ends.
fn note_item<'a>(
    definitions: &mut Definitions<'a>,
    at: u32,
    item: &'a Item,
) -> Result<u32, AllocError>
    requires { at + body_size (body_of item.now.body) < 2 ^ 32 }
    ensures definitions { OnOk result ((name : List ℕ) → found_at definitions.new name ≡ or_later (found_at definitions.old name) (definition_from at (item.now ∷ []) name)) }
    ensures end { IfOk result (λ end. end ≡ at + body_size (body_of item.now.body)) }
{
    let Some(body) = &item.body else {
        return Ok(at);
    };
    let extent = body_size(body.as_slice());
    let definition = Definition {
        local: item.local,
        begin: at,
        extent,
    };
    note(definitions, item.name.as_slice(), definition)?;
    Ok(at + extent)
}

// The first definition of each name of a unit.
pub(crate) fn definitions<'a>(
    alloc: Global,
    items: &'a [Item],
) -> Result<Definitions<'a>, AllocError>
    requires { length (text_of items.now) < 2 ^ 32 }
    ensures { IfOk result (λ definitions. (name : List ℕ) → found_at definitions name ≡ definition_from 0 items.now name) }
{
    let mut definitions = Definitions::new(alloc);
    let mut at = 0;
    for item in items {
        at = note_item(&mut definitions, at, item)?;
    }
    Ok(definitions)
}
