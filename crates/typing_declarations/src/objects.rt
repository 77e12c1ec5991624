// Objects at file scope.
ghost use Rattle.std.specs.Prelude.{◌≡◌, OnOk, IfOk};
ghost use Rattle.typing_faults.specs.Faults.{told};
ghost use Rattle.typing_symbols.specs.Sights.{is_static};
ghost use Rattle.typing_scopes.specs.Names.{declared_of};
ghost use Rattle.typing_declarations.specs.Declarators.{type_of};
ghost use Rattle.typing_declarations.specs.Objects.{is_byte, has_bytes, stated_by, stated_length, stated_type, was_defined, was_static, is_definition, object_type, old_type, same_bool, object_differs_from, object_differs, lacks_length, measured, sum_behind, object_rows, joined_with, joined, object_named};

use crate::declarators::{declared_size, is_large, is_unfit, type_of};
use crate::reserved::{is_main, is_reserved};
use crate::rows::add_if;
use crate::sums::Sum;
use crate::whole::Whole;
use std::alloc::AllocError;
use text_grammar::{Base, Declarator, Initialised, Initialiser, Linkage, ObjectItem};
use typing_faults::{Faults, TypeKind};
use typing_scopes::{Declared, Entity, Scope};
use typing_types::{CType, Integer};

pub(crate) fn is_static(linkage: Linkage) -> bool
    ensures { result ≡ is_static linkage }
{
    match linkage {
        Linkage::Static => true,
        Linkage::Plain | Linkage::Extern => false,
    }
}

/// Whether an object of this linkage is defined where it is declared; `extern` ones are defined elsewhere.
pub fn is_definition(linkage: Linkage) -> bool
    ensures { result ≡ is_definition linkage }
{
    match linkage {
        Linkage::Plain | Linkage::Static => true,
        Linkage::Extern => false,
    }
}

fn is_byte(integer: Option<Integer>) -> bool
    ensures { result ≡ is_byte integer }
{
    matches!(integer, Some(Integer::Char | Integer::UnsignedChar))
}

// Whether its elements have one byte.
fn has_bytes(ctype: &CType<'_>) -> bool
    ensures { result ≡ has_bytes ctype.now }
{
    match ctype.element() {
        Some(element) => is_byte(element.integer()),
        None => false,
    }
}

// As many; more than 2^32 - 1 are want of memory.
fn count(length: usize) -> Result<u32, AllocError>
    ensures { IfOk result (λ n. n ≡ length) }
{
    if length > u32::MAX as usize {
        return Err(AllocError);
    }
    Ok(length as u32)
}

// The length that an initialiser states of an array of this type.
fn stated_by(value: &Initialiser, ctype: &CType<'_>) -> Result<Option<u32>, AllocError>
    ensures { IfOk result (λ length. length ≡ stated_by value.now ctype.now) }
{
    match value {
        Initialiser::Expr(_) => Ok(None),
        Initialiser::String(_, bytes) => {
            if !has_bytes(ctype) {
                return Ok(None);
            }
            if bytes.len() >= u32::MAX as usize {
                return Err(AllocError);
            }
            Ok(Some(bytes.len() as u32 + 1))
        }
        Initialiser::List(_, items) => Ok(Some(count(items.len())?)),
    }
}

fn stated_length(
    initialised: &Option<Initialised>,
    ctype: &CType<'_>,
) -> Result<Option<u32>, AllocError>
    ensures { IfOk result (λ length. length ≡ stated_length initialised.now ctype.now) }
{
    match initialised {
        Some(initialised) => stated_by(&initialised.value, ctype),
        None => Ok(None),
    }
}

// The type with the length that its initialiser states, where the declarator leaves it open.
fn stated_type<'t>(item: &ObjectItem, ctype: &CType<'t>) -> Result<CType<'t>, AllocError>
    ensures { IfOk result (λ t. t ≡ stated_type item.now ctype.now) }
{
    if !item.declarator.is_open {
        return Ok(ctype.copy());
    }
    match stated_length(&item.initialised, ctype)? {
        Some(length) => Ok(ctype.with_length(length)),
        None => Ok(ctype.copy()),
    }
}

// What earlier declarations of a name say.
pub(crate) fn was_defined(scope: &Scope<'_>, name: &[u8]) -> bool
    ensures { result ≡ was_defined (declared_of scope.now name.now) }
{
    match scope.declared(name) {
        Some(declared) => declared.is_defined,
        None => false,
    }
}

pub(crate) fn was_static(scope: &Scope<'_>, name: &[u8], is_static: bool) -> bool
    ensures { result ≡ was_static (declared_of scope.now name.now) is_static }
{
    match scope.declared(name) {
        Some(declared) => declared.is_static,
        None => is_static,
    }
}

pub(crate) fn same_bool(left: bool, right: bool) -> bool
    ensures { result ≡ same_bool left right }
{
    if left { right } else { !right }
}

fn object_type<'t>(entity: &Entity<'t>) -> Option<CType<'t>>
    ensures { result ≡ object_type entity.now }
{
    match entity {
        Entity::Object(_, ctype) => Some(ctype.copy()),
        Entity::Temporary(..) | Entity::Local(..) | Entity::Function(_) => None,
    }
}

fn object_differs_from(is_static: bool, ctype: &CType<'_>, declared: &Declared<'_>) -> bool
    ensures { result ≡ object_differs_from is_static ctype.now declared.now }
{
    let agrees = match object_type(&declared.entity) {
        Some(old) => old.agrees(ctype),
        None => false,
    };
    !agrees || !same_bool(declared.is_static, is_static)
}

fn object_differs(scope: &Scope<'_>, name: &[u8], is_static: bool, ctype: &CType<'_>) -> bool
    ensures { result ≡ object_differs (declared_of scope.now name.now) is_static ctype.now }
{
    match scope.declared(name) {
        Some(declared) => object_differs_from(is_static, ctype, declared),
        None => false,
    }
}

fn lacks_length(linkage: Linkage, item: &ObjectItem) -> bool
    ensures { result ≡ lacks_length linkage item.now }
{
    item.declarator.is_open && (is_definition(linkage) && item.initialised.is_none())
}

// An array whose length is not known is measured by its elements.
fn measured<'t>(item: &ObjectItem, ctype: &CType<'t>) -> CType<'t>
    ensures { result ≡ measured item.now ctype.now }
{
    if item.declarator.is_open && ctype.length().is_none() {
        match ctype.element() {
            Some(element) => element,
            None => ctype.copy(),
        }
    } else {
        ctype.copy()
    }
}

fn sum_behind(scope: &Scope<'_>, sum: Sum, linkage: Linkage, ctype: &CType<'_>) -> Sum
    ensures { result ≡ sum_behind scope.now sum linkage ctype.now }
{
    if is_definition(linkage) {
        sum.with_maybe(declared_size(scope, ctype))
    } else {
        sum
    }
}

/// What an object is declared as, and what its initialiser is for.
#[derive(Drop)]
pub struct Target<'t> {
    /// The type as it is written.
    pub declared: CType<'t>,
    /// The same with the length that the initialiser states, where the declarator leaves it open.
    pub stated: CType<'t>,
}

// Tells the rules that an object of these types breaks.
#[tactic(auto, using(typing_faults::specs::laws::Faults::told_append))]
fn tell_object(
    faults: &mut Faults,
    scope: &Scope<'_>,
    sum: Sum,
    linkage: Linkage,
    base: &Base,
    item: &ObjectItem,
    target: &Target<'_>,
)
    ensures { faults.new ≡ told faults.old (object_rows scope.now sum linkage base.now item.now target.now.declared target.now.stated) }
{
    let at = item.declarator.name.at;
    let name = item.declarator.name.bytes.as_slice();
    let unfinished = target.declared.is_unfinished(scope.layouts());
    let doubled = is_definition(linkage) && was_defined(scope, name);
    let differs = object_differs(scope, name, is_static(linkage), &target.stated);
    let unfit = is_unfit(&target.stated) || lacks_length(linkage, item);
    let large = is_large(scope, &measured(item, &target.stated));
    let behind = sum_behind(scope, sum, linkage, &target.stated);
    let past = is_definition(linkage) && behind.is_past();
    add_if(faults, unfinished, TypeKind::Unknown, base.at);
    add_if(faults, doubled, TypeKind::Twice, at);
    add_if(faults, differs || unfit, TypeKind::Kind, at);
    add_if(faults, is_reserved(name), TypeKind::Reserved, at);
    add_if(faults, is_main(name), TypeKind::MainShape, at);
    add_if(faults, large || past, TypeKind::Size, at);
}

fn joined_with<'t>(ctype: &CType<'t>, old: CType<'t>) -> CType<'t>
    ensures { result ≡ joined_with ctype.now old.entry }
{
    if ctype.length().is_none() && old.agrees(ctype) {
        old
    } else {
        ctype.copy()
    }
}

fn old_type<'t>(scope: &Scope<'t>, name: &[u8]) -> Option<CType<'t>>
    ensures { result ≡ old_type (declared_of scope.now name.now) }
{
    match scope.declared(name) {
        Some(declared) => object_type(&declared.entity),
        None => None,
    }
}

// The type that a name has from this declaration on.
fn joined<'t>(scope: &Scope<'t>, name: &[u8], ctype: &CType<'t>) -> CType<'t>
    ensures { result ≡ joined (declared_of scope.now name.now) ctype.now }
{
    match old_type(scope, name) {
        Some(old) => joined_with(ctype, old),
        None => ctype.copy(),
    }
}

// From here on the name has this type.
fn name_object<'t>(
    whole: &Whole<'t>,
    scope: &mut Scope<'t>,
    linkage: Linkage,
    declarator: &'t Declarator,
    ctype: &CType<'t>,
) -> Result<(), AllocError>
    ensures { OnOk result (scope.new ≡ object_named whole.now scope.old linkage declarator.now ctype.now) }
{
    let name = declarator.name.bytes.as_slice();
    let declared = Declared {
        entity: Entity::Object(whole.symbol(name), joined(scope, name, ctype)),
        is_static: was_static(scope, name, is_static(linkage)),
        is_defined: was_defined(scope, name) || is_definition(linkage),
    };
    scope.declare(name, declared)
}

/// An object's declarator. Its name has its meaning from here on. Answers what its initialiser is for.
pub fn begin_object<'t>(
    whole: &Whole<'t>,
    faults: &mut Faults,
    scope: &mut Scope<'t>,
    sum: &mut Sum,
    linkage: Linkage,
    base: &Base,
    item: &'t ObjectItem,
) -> Result<Target<'t>, AllocError>
    ensures declared { IfOk result (λ target. target.declared ≡ type_of scope.old base.now item.now.declarator) }
    ensures stated { IfOk result (λ target. target.stated ≡ stated_type item.now (type_of scope.old base.now item.now.declarator)) }
    ensures told { IfOk result (λ target. faults.new ≡ told faults.old (object_rows scope.old sum.old linkage base.now item.now target.declared target.stated)) }
    ensures scope { IfOk result (λ target. scope.new ≡ object_named whole.now scope.old linkage item.now.declarator target.declared) }
    ensures sum { IfOk result (λ target. sum.new ≡ sum_behind scope.old sum.old linkage target.stated) }
{
    let declared = type_of(scope, base, &item.declarator)?;
    let stated = stated_type(item, &declared)?;
    let target = Target { declared, stated };
    tell_object(faults, scope, *sum, linkage, base, item, &target);
    *sum = sum_behind(scope, *sum, linkage, &target.stated);
    name_object(whole, scope, linkage, &item.declarator, &target.declared)?;
    Ok(target)
}

/// Behind an object's initialiser, its name has the length that the initialiser states.
pub fn end_object<'t>(
    whole: &Whole<'t>,
    scope: &mut Scope<'t>,
    linkage: Linkage,
    item: &'t ObjectItem,
    target: &Target<'t>,
) -> Result<(), AllocError>
    ensures { OnOk result (scope.new ≡ object_named whole.now scope.old linkage item.now.declarator target.now.stated) }
{
    name_object(whole, scope, linkage, &item.declarator, &target.stated)
}
