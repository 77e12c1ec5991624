// The locals of a function.
ghost use Rattle.std.specs.Prelude.{◌≡◌, OnOk, IfOk};
ghost use Rattle.typing_faults.specs.Faults.{told};
ghost use Rattle.typing_bodies.specs.Locals.{opened, local_form, value_rows, with_value, with_block, item_rows, item_behind, list_rows, list_behind, locals_rows, locals_behind};

use crate::prologue::Prologue;
use clight_unit::{Place, Statement};
use sqlite_items::Items;
use std::alloc::{AllocError, Global};
use text_grammar::{Base, LocalItem, LocalValue, Locals};
use typing_declarations::{Frame, add_local, declared_size};
use typing_expressions::{Form, Node};
use typing_faults::Faults;
use typing_scopes::Scope;
use typing_statements::{Gathered, typed_initialiser};
use typing_types::CType;

// The next local as its initialiser's target.
fn local_form(frame: &Frame, is_register: bool) -> Form
    ensures { result ≡ local_form frame.now is_register }
{
    if is_register {
        Form::Temporary(frame.temporaries)
    } else {
        Form::Place(Place::Local(frame.blocks))
    }
}

// The initialiser of a local.
fn open_value<'t>(
    alloc: Global,
    scope: &Scope<'t>,
    faults: &mut Faults,
    values: &mut Gathered<Statement>,
    local: Node<'t>,
    value: &Option<LocalValue>,
) -> Result<(), AllocError>
    ensures rows { OnOk result (faults.new ≡ told faults.old (value_rows scope.now local.entry value.now)) }
    ensures values { OnOk result (values.new ≡ with_value scope.now local.entry values.old value.now) }
{
    let Some(value) = value else {
        return Ok(());
    };
    let assignment = typed_initialiser(alloc, scope, faults, value.at, local, &value.value)?;
    values.add(assignment.map(Statement::Initialise))
}

fn add_block(
    scope: &Scope<'_>,
    sizes: &mut Items<u32>,
    is_register: bool,
    ctype: &CType<'_>,
) -> Result<(), AllocError>
    ensures { OnOk result (sizes.new ≡ with_block scope.now is_register ctype.now sizes.old) }
{
    if is_register {
        return Ok(());
    }
    let size = declared_size(scope, ctype).unwrap_or(0);
    sizes.push(size)?;
    Ok(())
}

// A local, with its initialiser.
#[tactic(auto, using(typing_faults::specs::laws::Faults::told_append))]
fn open_local<'t>(
    alloc: Global,
    scope: &mut Scope<'t>,
    faults: &mut Faults,
    prologue: &mut Prologue,
    is_register: bool,
    base: &Base,
    item: &'t LocalItem,
) -> Result<(), AllocError>
    ensures rows { OnOk result (faults.new ≡ told faults.old (item_rows (opened scope.old prologue.old) is_register base.now item.now)) }
    ensures opened { OnOk result (opened scope.new prologue.new ≡ item_behind (opened scope.old prologue.old) is_register base.now item.now) }
{
    let form = local_form(&prologue.frame, is_register);
    let declarator = &item.declarator;
    let ctype = add_local(
        faults,
        scope,
        &mut prologue.frame,
        is_register,
        base,
        declarator,
    )?;
    add_block(scope, &mut prologue.sizes, is_register, &ctype)?;
    let local = Node {
        ctype,
        is_null: false,
        form,
    };
    open_value(
        alloc,
        scope,
        faults,
        &mut prologue.values,
        local,
        &item.value,
    )
}

// The locals that one declaration names.
#[tactic(auto, using(typing_faults::specs::laws::Faults::told_append))]
fn open_list<'t>(
    alloc: Global,
    scope: &mut Scope<'t>,
    faults: &mut Faults,
    prologue: &mut Prologue,
    list: &'t Locals,
) -> Result<(), AllocError>
    ensures rows { OnOk result (faults.new ≡ told faults.old (list_rows (opened scope.old prologue.old) list.now.is_register list.now.base list.now.items)) }
    ensures opened { OnOk result (opened scope.new prologue.new ≡ list_behind (opened scope.old prologue.old) list.now.is_register list.now.base list.now.items) }
{
    'items: for item in list.items.as_slice() {
        open_local(
            alloc,
            scope,
            faults,
            prologue,
            list.is_register,
            &list.base,
            item,
        )?;
    }
    Ok(())
}

/// The locals of a function behind its head. They are visible from their declarators on; the rows that they break are told.
#[tactic(auto, using(typing_faults::specs::laws::Faults::told_append))]
pub fn open_locals<'t>(
    alloc: Global,
    scope: &mut Scope<'t>,
    faults: &mut Faults,
    prologue: &mut Prologue,
    locals: &'t [Locals],
) -> Result<(), AllocError>
    ensures rows { OnOk result (faults.new ≡ told faults.old (locals_rows (opened scope.old prologue.old) locals.now)) }
    ensures opened { OnOk result (opened scope.new prologue.new ≡ locals_behind (opened scope.old prologue.old) locals.now) }
{
    'locals: for list in locals {
        open_list(alloc, scope, faults, prologue, list)?;
    }
    Ok(())
}
