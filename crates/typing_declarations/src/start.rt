// What is known before the first declaration of a unit.
ghost use Rattle.std.specs.Prelude.{◌≡◌, IfOk, OnOk};
ghost use Rattle.typing_declarations.specs.Start.{tags_in, with_tags, scope_before};

use crate::whole::{Whole, add_built_ins};
use std::alloc::{AllocError, Global};
use text_grammar::External;
use typing_scopes::Scope;
use typing_tags::tags;

fn add_tags<'t>(alloc: Global, scope: &mut Scope<'t>, tags: &[&'t [u8]]) -> Result<(), AllocError>
    ensures { OnOk result (scope.new ≡ with_tags scope.old (tags_in tags.now)) }
{
    'tags: for tag in tags {
        scope.see_tag(alloc, *tag)?;
    }
    Ok(())
}

/// What is known before the first declaration: all tags of the unit have their numbers, and `getbyte` and `putbyte` are known.
pub fn begin_unit<'t>(
    alloc: Global,
    whole: &Whole<'t>,
    tree: &'t [External],
) -> Result<Scope<'t>, AllocError>
    ensures { IfOk result (λ scope. scope ≡ scope_before whole.now tree.now) }
{
    let tags = tags(alloc, tree)?;
    let mut scope = Scope::new(alloc);
    add_tags(alloc, &mut scope, tags.as_slice())?;
    add_built_ins(alloc, whole, &mut scope)?;
    Ok(scope)
}
