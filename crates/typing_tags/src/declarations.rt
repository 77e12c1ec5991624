// The tags in declarations.
ghost use Rattle.std.specs.Prelude.{◌≡◌, ◌++◌, map, OnOk, IfOk};
ghost use Rattle.std.specs.List.{flat_map};
ghost use Rattle.typing_tags.specs.Tags.{in_a_row, stmt_tags, initialiser_tags, initialised_tags, item_tags, members_tags, parameter_tags, head_tags, local_value_tags, local_tags, locals_tags, external_tags, tags_of};

use crate::expressions::{see_base, see_expr};
use crate::statements::see_statement;
use crate::tag_list::TagList;
use std::alloc::{AllocError, Global};
use text_grammar::{
    External, Head, Initialised, Initialiser, LocalItem, LocalValue, Locals, Members, ObjectItem,
    Parameter, Stmt,
};

#[cycle(initialiser)]
fn see_initialisers<'t>(out: &mut TagList<'t>, items: &'t [Initialiser]) -> Result<(), AllocError>
    ensures { OnOk result (out.new ≡ out.old ++ in_a_row (map initialiser_tags items.now)) }
{
    'items: for item in items {
        see_initialiser(out, item)?;
    }
    Ok(())
}

#[cycle(initialiser)]
fn see_initialiser<'t>(out: &mut TagList<'t>, value: &'t Initialiser) -> Result<(), AllocError>
    ensures { OnOk result (out.new ≡ out.old ++ initialiser_tags value.now) }
{
    match value {
        Initialiser::Expr(tree) => {
            see_expr(out, tree)?;
            Ok(())
        }
        Initialiser::String(..) => Ok(()),
        Initialiser::List(_, items) => {
            see_initialisers(out, items.as_slice())?;
            Ok(())
        }
    }
}

fn see_initialised<'t>(
    out: &mut TagList<'t>,
    value: &'t Option<Initialised>,
) -> Result<(), AllocError>
    ensures { OnOk result (out.new ≡ out.old ++ initialised_tags value.now) }
{
    match value {
        None => Ok(()),
        Some(value) => see_initialiser(out, &value.value),
    }
}

fn see_items<'t>(out: &mut TagList<'t>, items: &'t [ObjectItem]) -> Result<(), AllocError>
    ensures { OnOk result (out.new ≡ out.old ++ flat_map item_tags items.now) }
{
    'items: for item in items {
        see_initialised(out, &item.initialised)?;
    }
    Ok(())
}

fn see_members<'t>(out: &mut TagList<'t>, members: &'t [Members]) -> Result<(), AllocError>
    ensures { OnOk result (out.new ≡ out.old ++ flat_map members_tags members.now) }
{
    'members: for list in members {
        see_base(out, &list.base)?;
    }
    Ok(())
}

fn see_parameters<'t>(out: &mut TagList<'t>, parameters: &'t [Parameter]) -> Result<(), AllocError>
    ensures { OnOk result (out.new ≡ out.old ++ flat_map parameter_tags parameters.now) }
{
    'parameters: for parameter in parameters {
        see_base(out, &parameter.base)?;
    }
    Ok(())
}

fn see_head<'t>(out: &mut TagList<'t>, head: &'t Head) -> Result<(), AllocError>
    ensures { OnOk result (out.new ≡ out.old ++ head_tags head.now) }
{
    see_base(out, &head.base)?;
    see_parameters(out, head.parameters.as_slice())
}

fn see_local_value<'t>(
    out: &mut TagList<'t>,
    value: &'t Option<LocalValue>,
) -> Result<(), AllocError>
    ensures { OnOk result (out.new ≡ out.old ++ local_value_tags value.now) }
{
    match value {
        None => Ok(()),
        Some(value) => see_expr(out, &value.value),
    }
}

fn see_local_items<'t>(out: &mut TagList<'t>, items: &'t [LocalItem]) -> Result<(), AllocError>
    ensures { OnOk result (out.new ≡ out.old ++ flat_map local_tags items.now) }
{
    'items: for item in items {
        see_local_value(out, &item.value)?;
    }
    Ok(())
}

fn see_list<'t>(out: &mut TagList<'t>, list: &'t Locals) -> Result<(), AllocError>
    ensures { OnOk result (out.new ≡ out.old ++ locals_tags list.now) }
{
    see_base(out, &list.base)?;
    see_local_items(out, list.items.as_slice())
}

fn see_locals<'t>(out: &mut TagList<'t>, locals: &'t [Locals]) -> Result<(), AllocError>
    ensures { OnOk result (out.new ≡ out.old ++ flat_map locals_tags locals.now) }
{
    'locals: for list in locals {
        see_list(out, list)?;
    }
    Ok(())
}

fn see_statements<'t>(out: &mut TagList<'t>, body: &'t [Stmt]) -> Result<(), AllocError>
    ensures { OnOk result (out.new ≡ out.old ++ flat_map stmt_tags body.now) }
{
    'body: for statement in body {
        see_statement(out, statement)?;
    }
    Ok(())
}

fn see_external<'t>(out: &mut TagList<'t>, external: &'t External) -> Result<(), AllocError>
    ensures { OnOk result (out.new ≡ out.old ++ external_tags external.now) }
{
    match external {
        External::Struct(tag, members) => {
            out.push(tag.bytes.as_slice())?;
            see_members(out, members.as_slice())
        }
        External::Objects(_, base, items) => {
            see_base(out, base)?;
            see_items(out, items.as_slice())
        }
        External::Prototype(head) => see_head(out, head),
        External::Function(head, locals, body) => {
            see_head(out, head)?;
            see_locals(out, locals.as_slice())?;
            see_statements(out, body.as_slice())
        }
    }
}

/// The tags that a tree names.
pub fn tags<'t>(alloc: Global, tree: &'t [External]) -> Result<TagList<'t>, AllocError>
    ensures { IfOk result (λ tags. tags ≡ tags_of tree.now) }
{
    let mut out = TagList::new(alloc);
    'externals: for external in tree {
        see_external(&mut out, external)?;
    }
    Ok(out)
}
