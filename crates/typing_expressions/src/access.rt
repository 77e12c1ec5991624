// Elements and members.
ghost use Rattle.std.specs.Prelude.{◌≡◌, IfOk};
ghost use Rattle.typing_expressions.specs.Judgements.{of_part, of_parts};
ghost use Rattle.typing_expressions.specs.Access.{element_of_size, index_value, index, part_of, member, arrow_value, arrow};

use crate::conversions::{needed_size, size_fault};
use crate::judgement::Judgement;
use crate::node::{Form, Node, TypedValue};
use crate::valuing::valued;
use clight_unit::Place;
use sqlite_items::Boxed;
use std::alloc::{AllocError, Global};
use typing_faults::TypeKind;
use typing_scopes::{Member, Scope};
use typing_types::{CType, Class, Layout};

// An element of this type.
fn element_of_size<'t>(
    alloc: Global,
    structs: &[Option<Layout>],
    at: u32,
    array: TypedValue<'t>,
    index: TypedValue<'t>,
    ctype: CType<'t>,
) -> Result<Judgement<'t>, AllocError>
    ensures { IfOk result (λ j. j ≡ element_of_size structs.now at array.entry index.entry ctype.entry) }
{
    match needed_size(structs, &ctype) {
        Some(size) => {
            let array = Boxed::new(alloc, array.expression)?;
            let index = Boxed::new(alloc, index.expression)?;
            Ok(Judgement::fits(ctype, Form::Place(Place::Index(size, array, index))))
        }
        None => Ok(Judgement::broken(size_fault(structs, &ctype), at)),
    }
}

fn index_value<'t>(
    alloc: Global,
    structs: &[Option<Layout>],
    at: u32,
    array: TypedValue<'t>,
    index: TypedValue<'t>,
) -> Result<Judgement<'t>, AllocError>
    ensures { IfOk result (λ j. j ≡ index_value structs.now at array.entry index.entry) }
{
    if !index.operand.ctype.is_integer() {
        return Ok(Judgement::broken(TypeKind::Kind, at));
    }
    match array.operand.ctype.pointed() {
        Some(ctype) => element_of_size(alloc, structs, at, array, index, ctype),
        None => Ok(Judgement::broken(TypeKind::Kind, at)),
    }
}

// An element, where array and index break no rule.
fn index_node<'t>(
    alloc: Global,
    structs: &[Option<Layout>],
    at: u32,
    array: Node<'t>,
    subscript: Node<'t>,
) -> Result<Judgement<'t>, AllocError>
    ensures { IfOk result (λ j. j ≡ index structs.now at array.entry subscript.entry) }
{
    let Some(array) = valued(alloc, array)? else {
        return Ok(Judgement::broken(TypeKind::Kind, at));
    };
    let Some(subscript) = valued(alloc, subscript)? else {
        return Ok(Judgement::broken(TypeKind::Kind, at));
    };
    index_value(alloc, structs, at, array, subscript)
}

/// `e[i]`.
pub(crate) fn index<'t>(
    alloc: Global,
    structs: &[Option<Layout>],
    at: u32,
    array: Option<Node<'t>>,
    subscript: Option<Node<'t>>,
) -> Result<Option<Judgement<'t>>, AllocError>
    ensures { IfOk result (λ j. j ≡ of_parts (index structs.now at) array.entry subscript.entry) }
{
    let Some(array) = array else {
        return Ok(None);
    };
    let Some(subscript) = subscript else {
        return Ok(None);
    };
    Ok(Some(index_node(alloc, structs, at, array, subscript)?))
}

// A member of a struct that stands here.
fn part_of<'t>(
    alloc: Global,
    at: u32,
    form: Form,
    member: &Member<'t>,
) -> Result<Judgement<'t>, AllocError>
    ensures { IfOk result (λ j. j ≡ part_of at form member.now) }
{
    let Form::Place(place) = form else {
        return Ok(Judgement::broken(TypeKind::Kind, at));
    };
    let place = Boxed::new(alloc, place)?;
    let part = Form::Place(Place::Member(member.offset, place));
    Ok(Judgement::fits(member.ctype.copy(), part))
}

// A member of an expression that breaks no rule.
fn member_node<'t>(
    alloc: Global,
    scope: &Scope<'t>,
    at: u32,
    name: &[u8],
    node: Node<'t>,
) -> Result<Judgement<'t>, AllocError>
    ensures { IfOk result (λ j. j ≡ member scope.now at name.now node.entry) }
{
    let Class::Struct(tag) = node.ctype.class() else {
        return Ok(Judgement::broken(TypeKind::Kind, at));
    };
    match scope.member(tag, name) {
        Some(member) => part_of(alloc, at, node.form, member),
        None => Ok(Judgement::broken(TypeKind::Unknown, at)),
    }
}

/// `e.m`.
pub(crate) fn member<'t>(
    alloc: Global,
    scope: &Scope<'t>,
    at: u32,
    name: &[u8],
    part: Option<Node<'t>>,
) -> Result<Option<Judgement<'t>>, AllocError>
    ensures { IfOk result (λ j. j ≡ of_part (member scope.now at name.now) part.entry) }
{
    match part {
        Some(node) => Ok(Some(member_node(alloc, scope, at, name, node)?)),
        None => Ok(None),
    }
}

fn arrow_value<'t>(
    alloc: Global,
    scope: &Scope<'t>,
    at: u32,
    name: &[u8],
    value: TypedValue<'t>,
) -> Result<Judgement<'t>, AllocError>
    ensures { IfOk result (λ j. j ≡ arrow_value scope.now at name.now value.entry) }
{
    let Some(ctype) = value.operand.ctype.pointed() else {
        return Ok(Judgement::broken(TypeKind::Kind, at));
    };
    let Class::Struct(tag) = ctype.class() else {
        return Ok(Judgement::broken(TypeKind::Kind, at));
    };
    let Some(member) = scope.member(tag, name) else {
        return Ok(Judgement::broken(TypeKind::Unknown, at));
    };
    let expression = Boxed::new(alloc, value.expression)?;
    let part = Form::Place(Place::Arrow(member.offset, expression));
    Ok(Judgement::fits(member.ctype.copy(), part))
}

/// `e->m`.
pub(crate) fn arrow<'t>(
    alloc: Global,
    scope: &Scope<'t>,
    at: u32,
    name: &[u8],
    part: Option<Node<'t>>,
) -> Result<Option<Judgement<'t>>, AllocError>
    ensures { IfOk result (λ j. j ≡ of_part (arrow scope.now at name.now) part.entry) }
{
    let Some(node) = part else {
        return Ok(None);
    };
    match valued(alloc, node)? {
        Some(value) => Ok(Some(arrow_value(alloc, scope, at, name, value)?)),
        None => Ok(Some(Judgement::broken(TypeKind::Kind, at))),
    }
}
