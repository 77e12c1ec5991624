// A unit from its first declaration to its last.
ghost use Rattle.std.specs.Prelude.{◌≡◌, OnOk, IfOk};
ghost use Rattle.typing_faults.specs.Faults.{told};
ghost use Rattle.text_grammar.specs.declared.tree.External.TheVariants.{Function as SomeFunction};
ghost use Rattle.typing_units.specs.Walk.{external_rows, external_behind, walk_rows, walk_behind, walk_before};

use crate::objects::{tell_nodes, walk_items};
use crate::walk::Walk;
use cc_base::Sequence;
use std::alloc::{AllocError, Global};
use text_grammar::{External, Head, Locals, Stmt};
use typing_bodies::typed_function;
use typing_declarations::{Sum, Whole, add_prototype, add_struct, begin_unit};
use typing_faults::Faults;
use typing_nodes::together;
use typing_statements::Gathered;

// Before the first declaration of a unit.
fn walk_before<'t>(
    alloc: Global,
    whole: &Whole<'t>,
    tree: &'t [External],
) -> Result<Walk<'t>, AllocError>
    ensures { IfOk result (λ walk. walk ≡ walk_before whole.now tree.now) }
{
    Ok(Walk {
        scope: begin_unit(alloc, whole, tree)?,
        sum: Sum::new(),
        nodes: 0,
        globals: Sequence::new(alloc),
        functions: Gathered::new(alloc),
    })
}

// The definition of a function.
#[tactic(auto, using(typing_faults::specs::laws::Faults::told_append))]
fn walk_function<'t>(
    alloc: Global,
    whole: &Whole<'t>,
    faults: &mut Faults,
    walk: &mut Walk<'t>,
    head: &'t Head,
    locals: &'t [Locals],
    body: &'t [Stmt],
) -> Result<(), AllocError>
    ensures rows { OnOk result (faults.new ≡ told faults.old (external_rows whole.now walk.old (SomeFunction head.now locals.now body.now))) }
    ensures walk { OnOk result (walk.new ≡ external_behind whole.now walk.old (SomeFunction head.now locals.now body.now)) }
{
    let (function, nodes) = typed_function(
        alloc,
        whole,
        &mut walk.scope,
        faults,
        head,
        locals,
        body,
    )?;
    walk.nodes = together(walk.nodes, nodes);
    tell_nodes(faults, walk.nodes, head.name.at);
    walk.functions.add(function)
}

// A declaration or definition.
fn walk_external<'t>(
    alloc: Global,
    whole: &Whole<'t>,
    faults: &mut Faults,
    walk: &mut Walk<'t>,
    external: &'t External,
) -> Result<(), AllocError>
    ensures rows { OnOk result (faults.new ≡ told faults.old (external_rows whole.now walk.old external.now)) }
    ensures walk { OnOk result (walk.new ≡ external_behind whole.now walk.old external.now) }
{
    match external {
        External::Struct(tag, members) => {
            add_struct(alloc, faults, &mut walk.scope, tag, members.as_slice())
        }
        External::Objects(linkage, base, items) => {
            walk_items(alloc, whole, faults, walk, *linkage, base, items.as_slice())
        }
        External::Prototype(head) => add_prototype(alloc, whole, faults, &mut walk.scope, head),
        External::Function(head, locals, body) => {
            walk_function(
                alloc,
                whole,
                faults,
                walk,
                head,
                locals.as_slice(),
                body.as_slice(),
            )
        }
    }
}

// These declarations and definitions.
#[tactic(auto, using(typing_faults::specs::laws::Faults::told_append))]
fn walk_all<'t>(
    alloc: Global,
    whole: &Whole<'t>,
    faults: &mut Faults,
    walk: &mut Walk<'t>,
    tree: &'t [External],
) -> Result<(), AllocError>
    ensures rows { OnOk result (faults.new ≡ told faults.old (walk_rows whole.now walk.old tree.now)) }
    ensures walk { OnOk result (walk.new ≡ walk_behind whole.now walk.old tree.now) }
{
    'externals: for external in tree {
        walk_external(alloc, whole, faults, walk, external)?;
    }
    Ok(())
}

/// A unit, up to behind its last declaration. The rows that it breaks are told.
pub(crate) fn walk_unit<'t>(
    alloc: Global,
    whole: &Whole<'t>,
    faults: &mut Faults,
    tree: &'t [External],
) -> Result<Walk<'t>, AllocError>
    ensures rows { OnOk result (faults.new ≡ told faults.old (walk_rows whole.now (walk_before whole.now tree.now) tree.now)) }
    ensures walk { IfOk result (λ walk. walk ≡ walk_behind whole.now (walk_before whole.now tree.now) tree.now) }
{
    let mut walk = walk_before(alloc, whole, tree)?;
    walk_all(alloc, whole, faults, &mut walk, tree)?;
    Ok(walk)
}
