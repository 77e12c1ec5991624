// The declarators of objects at file scope.
ghost use Rattle.std.specs.Prelude.{◌≡◌, ◌≤◌, OnOk, IfOk};
ghost use Rattle.typing_faults.specs.Faults.{told};
ghost use Rattle.typing_units.specs.Objects.{nodes_rows, with_global, global_part as part_of, item_rows, item_behind, items_rows, items_behind};

use crate::parts::global_part;
use crate::walk::Walk;
use cc_base::Globals;
use std::alloc::{AllocError, Global};
use text_grammar::{Base, Declarator, Linkage, ObjectItem};
use typing_declarations::{Whole, begin_object, end_object, is_definition, laid_of};
use typing_faults::{Faults, TypeKind};
use typing_initialisers::{Data, initial_data};
use typing_nodes::{object_nodes, together};
use typing_types::Layout;

/// The most nodes of a unit.
const MOST_NODES: u32 = 65_536;

// The unit's nodes through a declarator or a function at a place.
pub(crate) fn tell_nodes(faults: &mut Faults, nodes: u32, at: u32)
    ensures { faults.new ≡ told faults.old (nodes_rows nodes at) }
{
    if nodes > MOST_NODES {
        faults.add(TypeKind::Nodes, at);
    }
}

// An object that begins with this content, where it is defined.
fn add_global(
    alloc: Global,
    whole: &Whole<'_>,
    globals: &mut Globals,
    linkage: Linkage,
    base: &Base,
    declarator: &Declarator,
    shape: Option<Layout>,
    content: Data,
) -> Result<(), AllocError>
    ensures { OnOk result (globals.new ≡ with_global linkage globals.old (part_of whole.now base.now declarator.now shape content)) }
{
    if is_definition(linkage) {
        globals.push(global_part(alloc, whole, base, declarator, shape, content)?)?;
    }
    Ok(())
}

// One declarator, with its initialiser.
#[tactic(auto, using(typing_faults::specs::laws::Faults::told_append))]
fn walk_item<'t>(
    alloc: Global,
    whole: &Whole<'t>,
    faults: &mut Faults,
    walk: &mut Walk<'t>,
    linkage: Linkage,
    base: &Base,
    item: &'t ObjectItem,
) -> Result<(), AllocError>
    ensures rows { OnOk result (faults.new ≡ told faults.old (item_rows whole.now linkage base.now walk.old item.now)) }
    ensures walk { OnOk result (walk.new ≡ item_behind whole.now linkage base.now walk.old item.now) }
{
    let scope = &mut walk.scope;
    let declarator = &item.declarator;
    let target = begin_object(whole, faults, scope, &mut walk.sum, linkage, base, item)?;
    let content = initial_data(
        alloc,
        scope,
        faults,
        linkage,
        &target.stated,
        &item.initialised,
    )?;
    let shape = laid_of(scope, &target.stated);
    end_object(whole, scope, linkage, item, &target)?;
    walk.nodes = together(walk.nodes, object_nodes(item));
    tell_nodes(faults, walk.nodes, declarator.name.at);
    add_global(
        alloc,
        whole,
        &mut walk.globals,
        linkage,
        base,
        declarator,
        shape,
        content,
    )?;
    Ok(())
}

/// The declarators of one declaration. The rows that they break are told, and the walk goes on behind them.
#[tactic(auto, using(typing_faults::specs::laws::Faults::told_append))]
pub(crate) fn walk_items<'t>(
    alloc: Global,
    whole: &Whole<'t>,
    faults: &mut Faults,
    walk: &mut Walk<'t>,
    linkage: Linkage,
    base: &Base,
    items: &'t [ObjectItem],
) -> Result<(), AllocError>
    ensures rows { OnOk result (faults.new ≡ told faults.old (items_rows whole.now linkage base.now walk.old items.now)) }
    ensures walk { OnOk result (walk.new ≡ items_behind whole.now linkage base.now walk.old items.now) }
{
    'items: for item in items {
        walk_item(alloc, whole, faults, walk, linkage, base, item)?;
    }
    Ok(())
}
