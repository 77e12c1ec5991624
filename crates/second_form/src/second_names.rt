// The rules of names, by an index of the names in order of first sight.
ghost use Rattle.std.specs.Prelude.{◌≡◌, ◌↔◌, ℕ, List, Some, IsTrue, IfOk, OnOk, MatchOption, if◌then◌else◌, Contains};
ghost use Rattle.std.specs.Str.{bytes_eq};
ghost use Rattle.second_form.specs.declared.second_items.SmallStmt.{SmallStmt};
ghost use Rattle.second_form.specs.declared.second_items.Item.{Item};
ghost use Rattle.second_form.specs.SecondForm.{IsAt, HasCall, StaticAlike, DefinedOnce, KeepsNames};
ghost use Rattle.second_form.specs.SecondNames.{known_of, joined_with, Indexes, IsSeenBy, IsDefined, KeepsItem};

use crate::second_items::{Item, SmallStmt};
use indexmap::IndexMap;
use std::alloc::{AllocError, Global};

/// What the items of a name have told so far.
#[derive(Clone, Copy, Drop)]
pub struct Known {
    /// Whether they are static.
    pub local: bool,
    /// The place of the first, counted from 0.
    pub first: usize,
    /// Whether one of them defines the name.
    pub defined: bool,
}

/// What is known of each name, in order of first sight.
pub type Names<'a> = IndexMap<&'a [u8], Known>;

// What is known of a name.
fn look_up(names: &Names<'_>, name: &[u8]) -> Option<Known>
    ensures { result ≡ known_of names.now name.now }
{
    names.get(name).copied()
}

// Sets what is known of a name.
fn note<'a>(names: &mut Names<'a>, name: &'a [u8], known: Known) -> Result<(), AllocError>
    ensures { OnOk result ((other : List ℕ) → known_of names.new other ≡ (if bytes_eq name.now other then Some known else known_of names.old other)) }
{
    names.insert(name, known)?;
    Ok(())
}

// What is known of a name after one more item of it, where that item agrees with the earlier ones.
fn joined(before: Option<Known>, place: usize, item: &Item) -> Option<Known>
    ensures { result ≡ joined_with before place item.now }
{
    let defined = item.body.is_some();
    let Some(known) = before else {
        return Some(Known {
            local: item.local,
            first: place,
            defined,
        });
    };
    if known.local != item.local || (known.defined && defined) {
        return None;
    }
    Some(Known {
        local: known.local,
        first: known.first,
        defined: known.defined || defined,
    })
}

// The index of the names, where no name is defined twice and all items of a name are static or none is.
fn index_of<'a>(alloc: Global, items: &'a [Item]) -> Result<Option<Names<'a>>, AllocError>
    ensures { IfOk result (λ o. MatchOption o (StaticAlike items.now → ¬ DefinedOnce items.now) (λ names. StaticAlike items.now × DefinedOnce items.now × Indexes items.now names)) }
{
    let mut names = Names::new(alloc);
    for (place, item) in items.iter().enumerate() {
        let name = item.name.as_slice();
        let Some(after) = joined(look_up(&names, name), place, item) else {
            return Ok(None);
        };
        note(&mut names, name, after)?;
    }
    Ok(Some(names))
}

// Whether an item of this name stands at the place or before it.
fn is_seen_by(names: &Names<'_>, name: &[u8], place: usize) -> bool
    ensures { IsTrue result ↔ IsSeenBy (known_of names.now name.now) place }
{
    match look_up(names, name) {
        Some(known) => known.first <= place,
        None => false,
    }
}

// Whether an item defines the name.
fn is_defined(names: &Names<'_>, name: &[u8]) -> bool
    ensures { IsTrue result ↔ IsDefined (known_of names.now name.now) }
{
    match look_up(names, name) {
        Some(known) => known.defined,
        None => false,
    }
}

// Whether a statement calls no name, or one that is declared by then.
fn is_declared(names: &Names<'_>, place: usize, statement: &SmallStmt) -> bool
    ensures { IsTrue result ↔ ((name : List ℕ) → statement.now ≡ SmallStmt.Call name → IsSeenBy (known_of names.now name) place) }
{
    match statement {
        SmallStmt::Call(name) => is_seen_by(names, name.as_slice(), place),
        SmallStmt::Put(_) | SmallStmt::Return(_) => true,
    }
}

// Whether each name that the statements call is declared by then.
fn are_declared(names: &Names<'_>, place: usize, statements: &[SmallStmt]) -> bool
    ensures { IsTrue result ↔ ((name : List ℕ) → Contains statements.now (SmallStmt.Call name) → IsSeenBy (known_of names.now name) place) }
{
    for statement in statements {
        if !is_declared(names, place, statement) {
            return false;
        }
    }
    true
}

// Whether the item's calls are declared, and where it is static it is defined and not `main`.
fn keeps_item(names: &Names<'_>, place: usize, item: &Item) -> bool
    ensures { IsTrue result ↔ KeepsItem names.now place item.now }
{
    let name = item.name.as_slice();
    if item.local && (!is_defined(names, name) || name == b"main".as_slice()) {
        return false;
    }
    match &item.body {
        Some(statements) => are_declared(names, place, statements.as_slice()),
        None => true,
    }
}

// Whether each item keeps the rules that the index tells.
fn keep_items(names: &Names<'_>, items: &[Item]) -> bool
    ensures { IsTrue result ↔ ((place : ℕ) (item : Item) → IsAt items.now place item → KeepsItem names.now place item) }
{
    for (place, item) in items.iter().enumerate() {
        if !keeps_item(names, place, item) {
            return false;
        }
    }
    true
}

// Whether the items keep the rules of names. The only error is want of memory for the index.
pub fn keep_names(alloc: Global, items: &[Item]) -> Result<bool, AllocError>
    ensures { IfOk result (λ kept. IsTrue kept ↔ KeepsNames items.now) }
{
    match index_of(alloc, items)? {
        Some(names) => Ok(keep_items(&names, items)),
        None => Ok(false),
    }
}
