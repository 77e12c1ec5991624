// What declarators say.
ghost use Rattle.std.specs.Prelude.{◌≡◌, ◌≤◌, IfOk, IfSome};
ghost use Rattle.typing_types.specs.Widths.{largest};
ghost use Rattle.typing_declarations.specs.Declarators.{type_of, is_unfit, is_aggregate, is_large, declared_size, laid_of};

use std::alloc::AllocError;
use text_grammar::{Base, Declarator};
use typing_scopes::Scope;
use typing_types::{CType, Class, Layout, Size, stars_of};

/// The type that a declarator gives its name.
pub(crate) fn type_of<'t>(
    scope: &Scope<'t>,
    base: &Base,
    declarator: &'t Declarator,
) -> Result<CType<'t>, AllocError>
    ensures { IfOk result (λ t. t ≡ type_of scope.now base.now declarator.now) }
{
    let stars = stars_of(declarator.stars)?;
    let begins = scope.base(&base.kind);
    Ok(CType::declared(
        begins,
        stars,
        declarator.is_open,
        declarator.lengths.as_slice(),
    ))
}

/// Whether no object has this type: `void` or an array of it, or an array of length 0.
pub(crate) fn is_unfit(ctype: &CType<'_>) -> bool
    ensures { result ≡ is_unfit ctype.now }
{
    ctype.is_of_void() || ctype.has_empty_length()
}

/// Whether it is an array or a struct.
pub(crate) fn is_aggregate(ctype: &CType<'_>) -> bool
    ensures { result ≡ is_aggregate ctype.now }
{
    matches!(ctype.class(), Class::Array | Class::Struct(_))
}

/// Whether its size is past the greatest.
pub(crate) fn is_large(scope: &Scope<'_>, ctype: &CType<'_>) -> bool
    ensures { result ≡ is_large scope.now ctype.now }
{
    if ctype.has_empty_length() {
        return false;
    }
    match ctype.size(scope.layouts()) {
        Size::Known(_) | Size::Unknown => false,
        Size::TooLarge => true,
    }
}

/// Its size, where it has one and that is not past the greatest.
pub fn declared_size(scope: &Scope<'_>, ctype: &CType<'_>) -> Option<u32>
    ensures value { result ≡ declared_size scope.now ctype.now }
    ensures small { IfSome result (λ n. n ≤ largest) }
{
    if ctype.has_empty_length() {
        return None;
    }
    match ctype.size(scope.layouts()) {
        Size::Known(size) => Some(size),
        Size::Unknown | Size::TooLarge => None,
    }
}

/// The same with its alignment.
pub fn laid_of(scope: &Scope<'_>, ctype: &CType<'_>) -> Option<Layout>
    ensures { result ≡ laid_of scope.now ctype.now }
{
    let size = declared_size(scope, ctype)?;
    let align = ctype.align(scope.layouts())?;
    Some(Layout::new(size, align))
}
