// Sizes that are needed, casts and `sizeof`.
ghost use Rattle.std.specs.Prelude.{◌≡◌, IfOk};
ghost use Rattle.typing_expressions.specs.Judgements.{of_part};
ghost use Rattle.typing_expressions.specs.Conversions.{needed_size, size_fault, unsigned, measured, sizeof_type, sizeof, cast_value, cast};

use crate::judgement::Judgement;
use crate::node::{Node, TypedValue};
use crate::valuing::valued;
use block_mem::Element;
use clight_unit::Expression;
use sqlite_items::Boxed;
use std::alloc::{AllocError, Global};
use text_grammar::TypeName;
use typing_faults::TypeKind;
use typing_scopes::Scope;
use typing_types::{Base, CType, Integer, Layout, Size, casts, conversion_to};

/// A size that is needed, in bytes. None exactly where it is not known, or is 0 or past the greatest size.
pub fn needed_size(structs: &[Option<Layout>], ctype: &CType<'_>) -> Option<Element>
    ensures { result ≡ needed_size structs.now ctype.now }
{
    // A pointer has a size, whatever it points to.
    if ctype.is_pointer() {
        return Some(Element::new(4));
    }
    match ctype.size(structs) {
        Size::Known(0) => None,
        Size::Known(size) => Some(Element::new(size)),
        Size::TooLarge => None,
        Size::Unknown => None,
    }
}

/// Which rule is broken where a size of this type is needed and not known: `Unknown` for a struct whose definition has not ended,
/// else `Kind`.
pub fn size_fault(structs: &[Option<Layout>], ctype: &CType<'_>) -> TypeKind
    ensures { result ≡ size_fault structs.now ctype.now }
{
    if ctype.is_unfinished(structs) {
        TypeKind::Unknown
    } else {
        TypeKind::Kind
    }
}

/// `unsigned`.
pub(crate) fn unsigned<'t>() -> CType<'t>
    ensures { result ≡ unsigned }
{
    CType::plain(Base::Integer(Integer::UnsignedInt), 0)
}

// The size of a type, as a number.
fn measured<'t>(
    structs: &[Option<Layout>],
    tag_at: u32,
    at: u32,
    ctype: &CType<'_>,
) -> Judgement<'t>
    ensures { result ≡ measured structs.now tag_at at ctype.now }
{
    match needed_size(structs, ctype) {
        Some(size) => Judgement::gives(unsigned(), Expression::Constant(size.size())),
        None if ctype.is_unfinished(structs) => Judgement::broken(TypeKind::Unknown, tag_at),
        None => Judgement::broken(TypeKind::Kind, at),
    }
}

/// `sizeof` of a type.
pub(crate) fn sizeof_type<'t>(
    scope: &Scope<'_>,
    at: u32,
    name: &TypeName,
) -> Result<Judgement<'t>, AllocError>
    ensures { IfOk result (λ j. j ≡ sizeof_type scope.now at name.now) }
{
    let ctype = scope.plain(&name.base, name.stars)?;
    Ok(measured(scope.layouts(), name.base.at, at, &ctype))
}

/// `sizeof` of an expression.
pub(crate) fn sizeof<'t>(
    scope: &Scope<'_>,
    at: u32,
    part: Option<Node<'t>>,
) -> Option<Judgement<'t>>
    ensures { result ≡ of_part (sizeof scope.now at) part.entry }
{
    match part {
        Some(node) => Some(measured(scope.layouts(), at, at, &node.ctype)),
        None => None,
    }
}

fn cast_value<'t>(
    alloc: Global,
    at: u32,
    to: CType<'t>,
    value: TypedValue<'t>,
) -> Result<Judgement<'t>, AllocError>
    ensures { IfOk result (λ j. j ≡ cast_value at to.entry value.entry) }
{
    if !casts(&to, &value.operand) {
        return Ok(Judgement::broken(TypeKind::Kind, at));
    }
    let conversion = conversion_to(&to);
    let expression = Boxed::new(alloc, value.expression)?;
    Ok(Judgement::gives(to, Expression::Unary(conversion, expression)))
}

/// A cast.
pub(crate) fn cast<'t>(
    alloc: Global,
    scope: &Scope<'_>,
    at: u32,
    name: &TypeName,
    part: Option<Node<'t>>,
) -> Result<Option<Judgement<'t>>, AllocError>
    ensures { IfOk result (λ j. j ≡ of_part (cast scope.now at name.now) part.entry) }
{
    let Some(node) = part else {
        return Ok(None);
    };
    let to = scope.plain(&name.base, name.stars)?;
    match valued(alloc, node)? {
        Some(value) => Ok(Some(cast_value(alloc, at, to, value)?)),
        None => Ok(Some(Judgement::broken(TypeKind::Kind, at))),
    }
}
