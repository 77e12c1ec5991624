// Locals of a function.
ghost use Rattle.std.specs.Prelude.{◌≡◌, false, OnOk, IfOk};
ghost use Rattle.typing_faults.specs.Faults.{told};
ghost use Rattle.typing_declarations.specs.Declarators.{type_of};
ghost use Rattle.typing_declarations.specs.Locals.{blocks_behind, is_unfit_local, local_rows, local_entity, local_named, frame_behind};

use crate::declarators::{declared_size, is_aggregate, is_large, is_unfit, type_of};
use crate::parameters::next;
use crate::reserved::is_reserved;
use crate::rows::add_if;
use crate::sums::Sum;
use std::alloc::AllocError;
use text_grammar::{Base, Declarator};
use typing_faults::{Faults, TypeKind};
use typing_scopes::{Entity, Scope};
use typing_types::CType;

/// What the locals of a function take so far.
#[derive(Drop)]
pub struct Frame {
    /// The sizes of its blocks.
    pub sum: Sum,
    /// How many parameters and `register` locals there are.
    pub temporaries: u32,
    /// How many other locals there are.
    pub blocks: u32,
}

fn blocks_behind(scope: &Scope<'_>, sum: Sum, is_register: bool, ctype: &CType<'_>) -> Sum
    ensures { result ≡ blocks_behind scope.now sum is_register ctype.now }
{
    if is_register {
        sum
    } else {
        sum.with_maybe(declared_size(scope, ctype))
    }
}

fn is_unfit_local(is_register: bool, declarator: &Declarator, ctype: &CType<'_>) -> bool
    ensures { result ≡ is_unfit_local is_register declarator.now ctype.now }
{
    is_unfit(ctype) || (declarator.is_open || (is_register && is_aggregate(ctype)))
}

// Tells the rules that a local of this type breaks.
#[tactic(auto, using(typing_faults::specs::laws::Faults::told_append))]
fn tell_local(
    faults: &mut Faults,
    scope: &Scope<'_>,
    sum: Sum,
    is_register: bool,
    base: &Base,
    declarator: &Declarator,
    ctype: &CType<'_>,
)
    ensures { faults.new ≡ told faults.old (local_rows scope.now sum is_register base.now declarator.now ctype.now) }
{
    let at = declarator.name.at;
    let name = declarator.name.bytes.as_slice();
    let unfinished = ctype.is_unfinished(scope.layouts());
    let unfit = is_unfit_local(is_register, declarator, ctype);
    let behind = blocks_behind(scope, sum, is_register, ctype);
    let past = !is_register && behind.is_past();
    let large = is_large(scope, ctype) || past;
    add_if(faults, unfinished, TypeKind::Unknown, base.at);
    add_if(faults, scope.is_own(name), TypeKind::Twice, at);
    add_if(faults, unfit, TypeKind::Kind, at);
    add_if(faults, is_reserved(name), TypeKind::Reserved, at);
    add_if(faults, large, TypeKind::Size, at);
}

fn local_entity<'t>(frame: &Frame, is_register: bool, ctype: CType<'t>) -> Entity<'t>
    ensures { result ≡ local_entity frame.now is_register ctype.entry }
{
    if is_register {
        Entity::Temporary(frame.temporaries, ctype)
    } else {
        Entity::Local(frame.blocks, ctype)
    }
}

fn count_local(
    frame: &mut Frame,
    scope: &Scope<'_>,
    is_register: bool,
    ctype: &CType<'_>,
) -> Result<(), AllocError>
    ensures { OnOk result (frame.new ≡ frame_behind scope.now frame.old is_register ctype.now) }
{
    if is_register {
        frame.temporaries = next(frame.temporaries)?;
    } else {
        frame.sum = blocks_behind(scope, frame.sum, false, ctype);
        frame.blocks = next(frame.blocks)?;
    }
    Ok(())
}

/// A local's declarator. Its name has its meaning from here on. Answers its type, which its initialiser is for.
pub fn add_local<'t>(
    faults: &mut Faults,
    scope: &mut Scope<'t>,
    frame: &mut Frame,
    is_register: bool,
    base: &Base,
    declarator: &'t Declarator,
) -> Result<CType<'t>, AllocError>
    ensures ctype { IfOk result (λ t. t ≡ type_of scope.old base.now declarator.now) }
    ensures told { IfOk result (λ t. faults.new ≡ told faults.old (local_rows scope.old frame.old.sum is_register base.now declarator.now t)) }
    ensures scope { IfOk result (λ t. scope.new ≡ local_named scope.old frame.old is_register declarator.now t) }
    ensures frame { IfOk result (λ t. frame.new ≡ frame_behind scope.old frame.old is_register t) }
{
    let ctype = type_of(scope, base, declarator)?;
    tell_local(
        faults,
        scope,
        frame.sum,
        is_register,
        base,
        declarator,
        &ctype,
    );
    let entity = local_entity(frame, is_register, ctype.copy());
    count_local(frame, scope, is_register, &ctype)?;
    scope.add_own(declarator.name.bytes.as_slice(), entity)?;
    Ok(ctype)
}
