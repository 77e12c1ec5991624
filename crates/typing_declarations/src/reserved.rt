// Names that stand for something already.
ghost use Rattle.std.specs.Prelude.{◌≡◌};
ghost use Rattle.typing_declarations.specs.Reserved.{is_reserved, is_main, gives_int, takes_int, is_like_built_in, breaks_reserve, breaks_main};

use typing_scopes::Prototype;
use typing_types::int;

/// Whether it is `_start`, `getbyte` or `putbyte`.
pub(crate) fn is_reserved(name: &[u8]) -> bool
    ensures { result ≡ is_reserved name.now }
{
    name == b"_start".as_slice() || (name == b"getbyte".as_slice() || name == b"putbyte".as_slice())
}

pub(crate) fn is_main(name: &[u8]) -> bool
    ensures { result ≡ is_main name.now }
{
    name == b"main".as_slice()
}

// Whether it is `int f(void)`.
#[tactic(auto, using(crate::proofs::TypeLists::lengths_differ))]
fn gives_int(prototype: &Prototype<'_>) -> bool
    ensures { result ≡ gives_int prototype.now }
{
    prototype.result.is_same(&int()) && matches!(prototype.parameters.as_slice(), [])
}

// Whether it is `void f(int)`.
#[tactic(auto, using(crate::proofs::TypeLists::lengths_differ))]
fn takes_int(prototype: &Prototype<'_>) -> bool
    ensures { result ≡ takes_int prototype.now }
{
    if !prototype.result.is_void() {
        return false;
    }
    match prototype.parameters.as_slice() {
        [parameter] => parameter.is_same(&int()),
        _ => false,
    }
}

fn is_like_built_in(name: &[u8], prototype: &Prototype<'_>) -> bool
    ensures { result ≡ is_like_built_in name.now prototype.now }
{
    (name == b"getbyte".as_slice() && gives_int(prototype))
        || (name == b"putbyte".as_slice() && takes_int(prototype))
}

/// Whether a function may not have this name. A built-in one may be declared as it is, by a prototype that is not static.
pub(crate) fn breaks_reserve(
    is_definition: bool,
    is_static: bool,
    name: &[u8],
    prototype: &Prototype<'_>,
) -> bool
    ensures { result ≡ breaks_reserve is_definition is_static name.now prototype.now }
{
    is_reserved(name) && !(!is_definition && (!is_static && is_like_built_in(name, prototype)))
}

/// Whether a function is named `main` and is not `int main(void)`, or is static.
pub(crate) fn breaks_main(is_static: bool, name: &[u8], prototype: &Prototype<'_>) -> bool
    ensures { result ≡ breaks_main is_static name.now prototype.now }
{
    is_main(name) && !(!is_static && gives_int(prototype))
}
