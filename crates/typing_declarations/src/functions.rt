// Prototypes, and the heads of functions.
ghost use Rattle.std.specs.Prelude.{◌≡◌, true, false, length, OnOk, IfOk};
ghost use Rattle.typing_faults.specs.Faults.{told};
ghost use Rattle.typing_scopes.specs.Names.{declared_of};
ghost use Rattle.typing_scopes.specs.Growth.{outside};
ghost use Rattle.typing_declarations.specs.Functions.{lacks_definition, head_rows, function_named, named_by, rows_of_head, head_behind, prototype_of};

use crate::locals::Frame;
use crate::objects::{is_static, was_defined, was_static};
use crate::parameters::add_parameters;
use crate::prototypes::{function_differs, prototype_of};
use crate::reserved::{breaks_main, breaks_reserve};
use crate::rows::add_if;
use crate::sums::Sum;
use crate::whole::Whole;
use std::alloc::{AllocError, Global};
use text_grammar::Head;
use typing_faults::{Faults, TypeKind};
use typing_scopes::{Declared, Entity, Prototype, Scope};

/// The greatest number of parameters.
const MOST_PARAMETERS: usize = 32;

// Whether the function's first declaration is static, and the unit does not define it.
fn lacks_definition(whole: &Whole<'_>, scope: &Scope<'_>, head: &Head) -> bool
    ensures { result ≡ lacks_definition whole.now (declared_of scope.now head.now.name.bytes) head.now }
{
    let name = head.name.bytes.as_slice();
    is_static(head.linkage) && (scope.declared(name).is_none() && !whole.has_function(name))
}

// Tells the rules that a head breaks, apart from its parameters.
#[tactic(auto, using(typing_faults::specs::laws::Faults::told_append))]
fn tell_head(
    faults: &mut Faults,
    whole: &Whole<'_>,
    scope: &Scope<'_>,
    is_definition: bool,
    head: &Head,
    prototype: &Prototype<'_>,
)
    ensures { faults.new ≡ told faults.old (head_rows whole.now scope.now is_definition head.now prototype.now) }
{
    let at = head.name.at;
    let name = head.name.bytes.as_slice();
    let is_static = is_static(head.linkage);
    let undefined = lacks_definition(whole, scope, head);
    let doubled = is_definition && was_defined(scope, name);
    let differs = function_differs(scope, name, is_static, prototype);
    let unfit = prototype.result.is_of_structs();
    let reserved = breaks_reserve(is_definition, is_static, name, prototype);
    let many = head.parameters.len() > MOST_PARAMETERS;
    add_if(faults, undefined, TypeKind::Unknown, at);
    add_if(faults, doubled, TypeKind::Twice, at);
    add_if(faults, differs || unfit, TypeKind::Kind, at);
    add_if(faults, reserved, TypeKind::Reserved, at);
    add_if(
        faults,
        breaks_main(is_static, name, prototype),
        TypeKind::MainShape,
        at,
    );
    add_if(faults, many, TypeKind::Params, at);
}

// From here on the name is this function's.
fn name_function<'t>(
    scope: &mut Scope<'t>,
    is_definition: bool,
    head: &'t Head,
    prototype: Prototype<'t>,
) -> Result<(), AllocError>
    ensures { OnOk result (scope.new ≡ function_named scope.old is_definition head.now prototype.entry) }
{
    let name = head.name.bytes.as_slice();
    let declared = Declared {
        entity: Entity::Function(prototype),
        is_static: was_static(scope, name, is_static(head.linkage)),
        is_defined: was_defined(scope, name) || is_definition,
    };
    scope.declare(name, declared)
}

// A head. Answers the number of its parameters.
#[tactic(auto, using(typing_faults::specs::laws::Faults::told_append))]
fn add_head<'t>(
    alloc: Global,
    whole: &Whole<'t>,
    faults: &mut Faults,
    scope: &mut Scope<'t>,
    is_definition: bool,
    head: &'t Head,
) -> Result<u32, AllocError>
    ensures count { IfOk result (λ n. n ≡ length head.now.parameters) }
    ensures scope { OnOk result (scope.new ≡ head_behind whole.now scope.old is_definition head.now) }
    ensures told { OnOk result (faults.new ≡ told faults.old (rows_of_head whole.now scope.old is_definition head.now)) }
{
    scope.leave(alloc);
    let prototype = prototype_of(alloc, whole, scope, head)?;
    tell_head(faults, whole, scope, is_definition, head, &prototype);
    name_function(scope, is_definition, head, prototype)?;
    add_parameters(faults, scope, head.parameters.as_slice())
}

/// A prototype. Its parameters' names are forgotten behind it.
#[tactic(auto, using(crate::specs::laws::Functions::parameters_are_own))]
pub fn add_prototype<'t>(
    alloc: Global,
    whole: &Whole<'t>,
    faults: &mut Faults,
    scope: &mut Scope<'t>,
    head: &'t Head,
) -> Result<(), AllocError>
    ensures scope { OnOk result (scope.new ≡ named_by whole.now scope.old false head.now) }
    ensures told { OnOk result (faults.new ≡ told faults.old (rows_of_head whole.now scope.old false head.now)) }
{
    add_head(alloc, whole, faults, scope, false, head)?;
    scope.leave(alloc);
    Ok(())
}

/// A function's head. The scope has its name and its parameters behind it.
pub fn begin_function<'t>(
    alloc: Global,
    whole: &Whole<'t>,
    faults: &mut Faults,
    scope: &mut Scope<'t>,
    head: &'t Head,
) -> Result<Frame, AllocError>
    ensures frame { IfOk result (λ frame. frame ≡ record { sum = 0; temporaries = length head.now.parameters; blocks = 0 }) }
    ensures scope { OnOk result (scope.new ≡ head_behind whole.now scope.old true head.now) }
    ensures told { OnOk result (faults.new ≡ told faults.old (rows_of_head whole.now scope.old true head.now)) }
{
    let temporaries = add_head(alloc, whole, faults, scope, true, head)?;
    Ok(Frame {
        sum: Sum::new(),
        temporaries,
        blocks: 0,
    })
}

/// Behind a function its parameters and locals are forgotten.
pub fn end_function(alloc: Global, scope: &mut Scope<'_>)
    ensures { scope.new ≡ outside scope.old }
{
    scope.leave(alloc);
}
