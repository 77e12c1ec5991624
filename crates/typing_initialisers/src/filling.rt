// What an initialiser gives to an object, and the rows that it breaks.
ghost use Rattle.std.specs.Prelude.{◌≡◌, map, OnOk};
ghost use Rattle.typing_faults.specs.Faults.{told};
ghost use Rattle.typing_scopes.specs.Visible.{Visible};
ghost use Rattle.typing_expressions.specs.Expressions.{rows, node_of};
ghost use Rattle.typing_expressions.specs.Places.{text_place};
ghost use Rattle.typing_initialisers.specs.Data.{with_parts};
ghost use Rattle.typing_initialisers.specs.Slots.{slot_in};
ghost use Rattle.typing_initialisers.specs.Initialisers.{refused, scalar_fill, string_fill, items_from, inner_rows, item_of, fills};

use crate::constant::constant_of;
use crate::data::Data;
use crate::slots::{Slots, has_room, slots_of, takes_string};
use std::alloc::{AllocError, Global};
use text_grammar::{Expr, Initialiser};
use typing_expressions::{text_place, typed};
use typing_faults::{Faults, TypeKind};
use typing_scopes::Scope;
use typing_types::CType;

// An expression, which is a constant for a scalar of a type at a place.
#[tactic(auto, using(typing_faults::specs::laws::Faults::told_append))]
fn fill_scalar<'t>(
    alloc: Global,
    scope: &Scope<'t>,
    faults: &mut Faults,
    out: &mut Data,
    ctype: &CType<'t>,
    at: usize,
    tree: &Expr,
) -> Result<(), AllocError>
    ensures rows { OnOk result (faults.new ≡ told faults.old (scalar_fill (rows scope.now tree.now) (text_place tree.now) (node_of scope.now tree.now) ctype.now at).rows) }
    ensures parts { OnOk result (out.new ≡ with_parts out.old (scalar_fill (rows scope.now tree.now) (text_place tree.now) (node_of scope.now tree.now) ctype.now at).parts) }
{
    let Some(node) = typed(alloc, scope, faults, tree)? else {
        return Ok(());
    };
    match constant_of(alloc, ctype, node)? {
        Some(constant) => out.put(at, constant),
        None => {
            faults.add(TypeKind::Initialiser, text_place(tree));
            Ok(())
        }
    }
}

fn fill_string(
    faults: &mut Faults,
    out: &mut Data,
    ctype: &CType<'_>,
    at: usize,
    place: u32,
    bytes: &[u8],
) -> Result<(), AllocError>
    ensures rows { OnOk result (faults.new ≡ told faults.old (string_fill place bytes.now ctype.now at).rows) }
    ensures parts { OnOk result (out.new ≡ with_parts out.old (string_fill place bytes.now ctype.now at).parts) }
{
    if !takes_string(ctype, bytes) {
        faults.add(TypeKind::Initialiser, place);
        return Ok(());
    }
    if has_room(ctype.length(), bytes.len()) {
        out.put_closed(at, bytes)
    } else {
        out.put_bytes(at, bytes)
    }
}

#[cycle(item)]
#[tactic(auto, using(typing_faults::specs::laws::Faults::told_append))]
fn tell_items<'t>(
    alloc: Global,
    scope: &Scope<'t>,
    faults: &mut Faults,
    items: &[Initialiser],
) -> Result<(), AllocError>
    ensures { OnOk result (faults.new ≡ told faults.old (inner_rows (map (item_of scope.now) items.now))) }
{
    'items: for item in items {
        tell(alloc, scope, faults, item)?;
    }
    Ok(())
}

// The rows that the expressions of an item break, whatever it is for.
#[cycle(item)]
fn tell<'t>(
    alloc: Global,
    scope: &Scope<'t>,
    faults: &mut Faults,
    item: &Initialiser,
) -> Result<(), AllocError>
    ensures { OnOk result (faults.new ≡ told faults.old (item_of scope.now item.now).inner) }
{
    match item {
        Initialiser::Expr(tree) => {
            typed(alloc, scope, faults, tree)?;
            Ok(())
        }
        Initialiser::String(..) => Ok(()),
        Initialiser::List(_, items) => tell_items(alloc, scope, faults, items.as_slice()),
    }
}

// The place of an item: that of its own token.
fn place_in(item: &Initialiser) -> u32
    ensures { (scope : Visible) → result ≡ (item_of scope item.now).place }
{
    match item {
        Initialiser::Expr(tree) => text_place(tree),
        Initialiser::String(at, _) | Initialiser::List(at, _) => *at,
    }
}

// An item that does not fit.
#[tactic(auto, using(typing_faults::specs::laws::Faults::told_append))]
fn refuse<'t>(
    alloc: Global,
    scope: &Scope<'t>,
    faults: &mut Faults,
    item: &Initialiser,
) -> Result<(), AllocError>
    ensures { OnOk result (faults.new ≡ told faults.old (refused (item_of scope.now item.now).inner (item_of scope.now item.now).place).rows) }
{
    tell(alloc, scope, faults, item)?;
    faults.add(TypeKind::Initialiser, place_in(item));
    Ok(())
}

#[cycle(initialiser)]
#[tactic(auto, using(typing_faults::specs::laws::Faults::told_append, crate::specs::laws::Data::with_parts_append))]
fn fill_items<'t>(
    alloc: Global,
    scope: &Scope<'t>,
    faults: &mut Faults,
    out: &mut Data,
    slots: &Slots<'t>,
    items: &[Initialiser],
) -> Result<(), AllocError>
    ensures rows { OnOk result (faults.new ≡ told faults.old (items_from (slot_in scope.now slots.now) 0 (map (item_of scope.now) items.now)).rows) }
    ensures parts { OnOk result (out.new ≡ with_parts out.old (items_from (slot_in scope.now slots.now) 0 (map (item_of scope.now) items.now)).parts) }
{
    'items: for (index, item) in items.iter().enumerate() {
        match slots.slot(scope, index)? {
            Some(slot) => fill(alloc, scope, faults, out, &slot.ctype, slot.at, item)?,
            None => refuse(alloc, scope, faults, item)?,
        }
    }
    Ok(())
}

// What an initialiser gives to an object of a type, which stands at a place of a whole: it is added to the data behind what was added
// before.
#[cycle(initialiser)]
pub(crate) fn fill<'t>(
    alloc: Global,
    scope: &Scope<'t>,
    faults: &mut Faults,
    out: &mut Data,
    ctype: &CType<'t>,
    at: usize,
    value: &Initialiser,
) -> Result<(), AllocError>
    ensures rows { OnOk result (faults.new ≡ told faults.old (fills scope.now value.now ctype.now at).rows) }
    ensures parts { OnOk result (out.new ≡ with_parts out.old (fills scope.now value.now ctype.now at).parts) }
{
    match value {
        Initialiser::Expr(tree) => {
            if !ctype.is_scalar() {
                return refuse(alloc, scope, faults, value);
            }
            fill_scalar(alloc, scope, faults, out, ctype, at, tree)
        }
        Initialiser::String(place, bytes) => {
            fill_string(faults, out, ctype, at, *place, bytes.as_slice())
        }
        Initialiser::List(_, items) => match slots_of(scope, ctype, at) {
            Some(slots) => fill_items(alloc, scope, faults, out, &slots, items.as_slice()),
            None => refuse(alloc, scope, faults, value),
        },
    }
}
