// The names of a unit's symbols.
ghost use Rattle.std.specs.Prelude.{◌≡◌, ◌++◌, ◌&&◌, ◌||◌, ℕ, List, [], ◌∷◌, not, is_some, map, filter, OnOk, IfOk};
ghost use Rattle.std.specs.Str.{bytes_eq};
ghost use Rattle.indexmap.specs.IndexSet.{insert_key, insert_all};
ghost use Rattle.second_code.specs.Parts.{uses_from, unit_uses_from, definition_from, first_sights, is_static, is_used, symbol_names};
ghost use Rattle.second_code.specs.PartSteps.{bytes_of, use_of, found_at, has};

use crate::calls::CallSite;
use crate::definitions::{Definitions, look_up};
use crate::text::statements;
use cc_base::Sequence;
use indexmap::IndexSet;
use second_form::{Item, SmallStmt};
use std::alloc::{AllocError, Global};

/// Names, each once, in the order of their first sight.
pub type NameSet<'a> = IndexSet<&'a [u8]>;

/// Names in their order.
pub type NameList<'a> = Sequence<&'a [u8]>;

// Notes a name, last where it is new.
fn note<'a>(names: &mut NameSet<'a>, name: &'a [u8]) -> Result<(), AllocError>
    ensures keys { OnOk result (bytes_of names.new.keys ≡ insert_key bytes_eq (bytes_of names.old.keys) name.now) }
    ensures has { OnOk result ((other : List ℕ) → has names.new other ≡ (bytes_eq name.now other || has names.old other)) }
{
    names.insert(name)?;
    Ok(())
}

// Notes what a statement calls.
fn note_callee<'a>(names: &mut NameSet<'a>, statement: &'a SmallStmt) -> Result<(), AllocError>
    ensures { OnOk result (bytes_of names.new.keys ≡ insert_all bytes_eq (bytes_of names.old.keys) (map (λ call. call.callee) (uses_from 0 (statement.now ∷ [])))) }
{
    match statement {
        SmallStmt::Put(_) => note(names, b"putbyte"),
        SmallStmt::Call(name) => note(names, name.as_slice()),
        SmallStmt::Return(_) => Ok(()),
    }
}

// Notes what these statements call.
fn note_callees<'a>(names: &mut NameSet<'a>, body: &'a [SmallStmt]) -> Result<(), AllocError>
    ensures { OnOk result (bytes_of names.new.keys ≡ insert_all bytes_eq (bytes_of names.old.keys) (map (λ call. call.callee) (uses_from 0 body.now))) }
{
    for statement in body {
        note_callee(names, statement)?;
    }
    Ok(())
}

// The names of a unit, in the order of the first tokens that name them.
pub(crate) fn first_sights<'a>(alloc: Global, items: &'a [Item]) -> Result<NameSet<'a>, AllocError>
    ensures { IfOk result (λ names. bytes_of names.keys ≡ first_sights items.now) }
{
    let mut names = NameSet::new(alloc);
    for item in items {
        note(&mut names, item.name.as_slice())?;
        note_callees(&mut names, statements(item))?;
    }
    Ok(names)
}

// The names that are called.
pub(crate) fn used_names<'a>(
    alloc: Global,
    calls: &[CallSite<'a>],
) -> Result<NameSet<'a>, AllocError>
    ensures { IfOk result (λ used. (name : List ℕ) → has used name ≡ is_used (map use_of calls.now) name) }
{
    let mut used = NameSet::new(alloc);
    for call in calls {
        note(&mut used, call.callee)?;
    }
    Ok(used)
}

// Whether the definition of a name is static.
fn is_static(definitions: &Definitions<'_>, name: &[u8]) -> bool
    ensures { result ≡ is_static (found_at definitions.now name.now) }
{
    match look_up(definitions, name) {
        Some(definition) => definition.local,
        None => false,
    }
}

// Whether a name is defined and not static, or used and not defined.
fn is_shared(definitions: &Definitions<'_>, used: &NameSet<'_>, name: &[u8]) -> bool
    ensures { result ≡ (not (is_static (found_at definitions.now name.now)) && (is_some (found_at definitions.now name.now) || has used.now name.now)) }
{
    match look_up(definitions, name) {
        Some(definition) => !definition.local,
        None => used.contains(name),
    }
}

// Appends those of the names that are static.
fn push_static<'a>(
    chosen: &mut NameList<'a>,
    names: &[&'a [u8]],
    definitions: &Definitions<'_>,
) -> Result<(), AllocError>
    ensures { OnOk result (bytes_of chosen.new ≡ bytes_of chosen.old ++ filter (λ name. is_static (found_at definitions.now name)) (bytes_of names.now)) }
{
    for name in names {
        if is_static(definitions, name) {
            chosen.push(*name)?;
        }
    }
    Ok(())
}

// Appends those of the names that other units may share.
fn push_shared<'a>(
    chosen: &mut NameList<'a>,
    names: &[&'a [u8]],
    definitions: &Definitions<'_>,
    used: &NameSet<'_>,
) -> Result<(), AllocError>
    ensures { OnOk result (bytes_of chosen.new ≡ bytes_of chosen.old ++ filter (λ name. not (is_static (found_at definitions.now name)) && (is_some (found_at definitions.now name) || has used.now name)) (bytes_of names.now)) }
{
    for name in names {
        if is_shared(definitions, used, name) {
            chosen.push(*name)?;
        }
    }
    Ok(())
}

// The names that have symbols: the static ones first.
pub(crate) fn symbol_names<'a>(
    alloc: Global,
    items: &'a [Item],
    definitions: &Definitions<'_>,
    calls: &[CallSite<'a>],
) -> Result<NameList<'a>, AllocError>
    requires definitions { (name : List ℕ) → found_at definitions.now name ≡ definition_from 0 items.now name }
    requires calls { map use_of calls.now ≡ unit_uses_from 0 items.now }
    ensures { IfOk result (λ names. bytes_of names ≡ symbol_names items.now) }
{
    let used = used_names(alloc, calls)?;
    let sights = first_sights(alloc, items)?;
    let seen = sights.as_slice();
    let mut names = NameList::new(alloc);
    push_static(&mut names, seen, definitions)?;
    push_shared(&mut names, seen, definitions, &used)?;
    Ok(names)
}
