// The names in declarations.
ghost use Rattle.std.specs.Prelude.{◌≡◌, [], ◌++◌, map, OnOk, IfOk};
ghost use Rattle.std.specs.List.{flat_map};
ghost use Rattle.typing_symbols.specs.Sights.{in_a_row, initialiser_sights, initialised_sights, is_static, object_how, object_sights, external_sights, sights_of, stmt_sights, hidden_by, with_parameter, local_value_sights, hidden_by_item, hidden_by_items, items_sights, hidden_by_locals, locals_sights, body_sights};

use crate::expressions::see_expr;
use crate::names::Names;
use crate::sight::{How, Sights};
use crate::statements::see_statement;
use std::alloc::{AllocError, Global};
use text_grammar::{
    External, Initialised, Initialiser, Linkage, LocalItem, LocalValue, Locals, NameAt, ObjectItem,
    Parameter, Stmt,
};

#[cycle(initialiser)]
fn see_initialisers<'t>(
    out: &mut Sights<'t>,
    hidden: &Names<'t>,
    items: &'t [Initialiser],
) -> Result<(), AllocError>
    ensures { OnOk result (out.new ≡ out.old ++ in_a_row (map (initialiser_sights hidden.now) items.now)) }
{
    'items: for item in items {
        see_initialiser(out, hidden, item)?;
    }
    Ok(())
}

#[cycle(initialiser)]
fn see_initialiser<'t>(
    out: &mut Sights<'t>,
    hidden: &Names<'t>,
    value: &'t Initialiser,
) -> Result<(), AllocError>
    ensures { OnOk result (out.new ≡ out.old ++ initialiser_sights hidden.now value.now) }
{
    match value {
        Initialiser::Expr(tree) => {
            see_expr(out, hidden, tree)?;
            Ok(())
        }
        Initialiser::String(..) => Ok(()),
        Initialiser::List(_, items) => {
            see_initialisers(out, hidden, items.as_slice())?;
            Ok(())
        }
    }
}

fn see_initialised<'t>(
    alloc: Global,
    out: &mut Sights<'t>,
    value: &'t Option<Initialised>,
) -> Result<(), AllocError>
    ensures { OnOk result (out.new ≡ out.old ++ initialised_sights value.now) }
{
    match value {
        None => Ok(()),
        Some(value) => see_initialiser(out, &Names::new(alloc), &value.value),
    }
}

fn is_static(linkage: Linkage) -> bool
    ensures { result ≡ is_static linkage }
{
    match linkage {
        Linkage::Static => true,
        Linkage::Plain | Linkage::Extern => false,
    }
}

fn object_how(linkage: Linkage) -> How
    ensures { result ≡ object_how linkage }
{
    match linkage {
        Linkage::Static => How::Defined(true),
        Linkage::Plain => How::Defined(false),
        Linkage::Extern => How::Declared(false),
    }
}

fn see_object<'t>(
    alloc: Global,
    out: &mut Sights<'t>,
    linkage: Linkage,
    item: &'t ObjectItem,
) -> Result<(), AllocError>
    ensures { OnOk result (out.new ≡ out.old ++ object_sights linkage item.now) }
{
    out.push(item.declarator.name.bytes.as_slice(), object_how(linkage))?;
    see_initialised(alloc, out, &item.initialised)
}

fn see_objects<'t>(
    alloc: Global,
    out: &mut Sights<'t>,
    linkage: Linkage,
    items: &'t [ObjectItem],
) -> Result<(), AllocError>
    ensures { OnOk result (out.new ≡ out.old ++ flat_map (object_sights linkage) items.now) }
{
    'items: for item in items {
        see_object(alloc, out, linkage, item)?;
    }
    Ok(())
}

fn hide_parameter<'t>(hidden: &mut Names<'t>, name: &'t Option<NameAt>) -> Result<(), AllocError>
    ensures { OnOk result (hidden.new ≡ with_parameter hidden.old name.now) }
{
    match name {
        None => Ok(()),
        Some(name) => hidden.add(name.bytes.as_slice()),
    }
}

fn hide_parameters<'t>(
    hidden: &mut Names<'t>,
    parameters: &'t [Parameter],
) -> Result<(), AllocError>
    ensures { OnOk result (hidden.new ≡ hidden_by hidden.old parameters.now) }
{
    'parameters: for parameter in parameters {
        hide_parameter(hidden, &parameter.name)?;
    }
    Ok(())
}

fn see_local_value<'t>(
    out: &mut Sights<'t>,
    hidden: &Names<'t>,
    value: &'t Option<LocalValue>,
) -> Result<(), AllocError>
    ensures { OnOk result (out.new ≡ out.old ++ local_value_sights hidden.now value.now) }
{
    match value {
        None => Ok(()),
        Some(value) => see_expr(out, hidden, &value.value),
    }
}

// A local hides its name from its own initialiser on.
fn see_local<'t>(
    out: &mut Sights<'t>,
    hidden: &mut Names<'t>,
    item: &'t LocalItem,
) -> Result<(), AllocError>
    ensures hidden { OnOk result (hidden.new ≡ hidden_by_item hidden.old item.now) }
    ensures sights { OnOk result (out.new ≡ out.old ++ local_value_sights (hidden_by_item hidden.old item.now) item.now.value) }
{
    hidden.add(item.declarator.name.bytes.as_slice())?;
    see_local_value(out, hidden, &item.value)
}

fn see_local_items<'t>(
    out: &mut Sights<'t>,
    hidden: &mut Names<'t>,
    items: &'t [LocalItem],
) -> Result<(), AllocError>
    ensures hidden { OnOk result (hidden.new ≡ hidden_by_items hidden.old items.now) }
    ensures sights { OnOk result (out.new ≡ out.old ++ items_sights hidden.old items.now) }
{
    'items: for item in items {
        see_local(out, hidden, item)?;
    }
    Ok(())
}

fn see_locals<'t>(
    out: &mut Sights<'t>,
    hidden: &mut Names<'t>,
    locals: &'t [Locals],
) -> Result<(), AllocError>
    ensures hidden { OnOk result (hidden.new ≡ hidden_by_locals hidden.old locals.now) }
    ensures sights { OnOk result (out.new ≡ out.old ++ locals_sights hidden.old locals.now) }
{
    'locals: for list in locals {
        see_local_items(out, hidden, list.items.as_slice())?;
    }
    Ok(())
}

fn see_statements<'t>(
    out: &mut Sights<'t>,
    hidden: &Names<'t>,
    body: &'t [Stmt],
) -> Result<(), AllocError>
    ensures { OnOk result (out.new ≡ out.old ++ flat_map (stmt_sights hidden.now) body.now) }
{
    'body: for statement in body {
        see_statement(out, hidden, statement)?;
    }
    Ok(())
}

// What stands between the braces of a function with these parameters.
fn see_body<'t>(
    alloc: Global,
    out: &mut Sights<'t>,
    parameters: &'t [Parameter],
    locals: &'t [Locals],
    body: &'t [Stmt],
) -> Result<(), AllocError>
    ensures { OnOk result (out.new ≡ out.old ++ body_sights (hidden_by [] parameters.now) locals.now body.now) }
{
    let mut hidden = Names::new(alloc);
    hide_parameters(&mut hidden, parameters)?;
    see_locals(out, &mut hidden, locals)?;
    see_statements(out, &hidden, body)
}

fn see_external<'t>(
    alloc: Global,
    out: &mut Sights<'t>,
    external: &'t External,
) -> Result<(), AllocError>
    ensures { OnOk result (out.new ≡ out.old ++ external_sights external.now) }
{
    match external {
        External::Struct(..) => Ok(()),
        External::Objects(linkage, _, items) => {
            see_objects(alloc, out, *linkage, items.as_slice())
        }
        External::Prototype(head) => out.push(
            head.name.bytes.as_slice(),
            How::Declared(is_static(head.linkage)),
        ),
        External::Function(head, locals, body) => {
            out.push(
                head.name.bytes.as_slice(),
                How::Defined(is_static(head.linkage)),
            )?;
            see_body(
                alloc,
                out,
                head.parameters.as_slice(),
                locals.as_slice(),
                body.as_slice(),
            )
        }
    }
}

/// Where a tree names what it declares at file scope, or what another unit defines.
pub fn sights<'t>(alloc: Global, tree: &'t [External]) -> Result<Sights<'t>, AllocError>
    ensures { IfOk result (λ s. s ≡ sights_of tree.now) }
{
    let mut out = Sights::new(alloc);
    'externals: for external in tree {
        see_external(alloc, &mut out, external)?;
    }
    Ok(out)
}
