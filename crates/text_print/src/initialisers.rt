// The tokens of initialisers.
ghost use Rattle.std.specs.Prelude.{◌≡◌, ◌++◌, map, OnOk};
ghost use Rattle.text_grammar.specs.declared.kind.Kind.TheVariants as k;
ghost use Rattle.text_print.specs.Canonical.{separated, initialiser_tokens, initialised_tokens};

use crate::expressions::put_expr;
use crate::pieces::Pieces;
use std::alloc::AllocError;
use text_grammar::{Initialised, Initialiser, Kind};

#[cycle(initialiser)]
fn put_items<'a>(out: &mut Pieces<'a>, items: &'a [Initialiser]) -> Result<(), AllocError>
    ensures { OnOk result (out.new ≡ out.old ++ separated k.Comma (λ ts. ts) (map initialiser_tokens items.now)) }
{
    match items {
        [] => Ok(()),
        [first, rest @ ..] => {
            put_initialiser(out, first)?;
            'rest: for item in rest {
                out.fixed(Kind::Comma)?;
                put_initialiser(out, item)?;
            }
            Ok(())
        }
    }
}

#[cycle(initialiser)]
fn put_initialiser<'a>(out: &mut Pieces<'a>, value: &'a Initialiser) -> Result<(), AllocError>
    ensures { OnOk result (out.new ≡ out.old ++ initialiser_tokens value.now) }
{
    match value {
        Initialiser::Expr(tree) => {
            put_expr(out, tree)?;
            Ok(())
        }
        Initialiser::String(_, bytes) => {
            out.string(bytes.as_slice())?;
            Ok(())
        }
        Initialiser::List(_, items) => {
            out.fixed(Kind::LBrace)?;
            put_items(out, items.as_slice())?;
            out.fixed(Kind::RBrace)?;
            Ok(())
        }
    }
}

/// `=` and the initialiser, where there is one.
pub fn put_initialised<'a>(
    out: &mut Pieces<'a>,
    value: &'a Option<Initialised>,
) -> Result<(), AllocError>
    ensures { OnOk result (out.new ≡ out.old ++ initialised_tokens value.now) }
{
    match value {
        None => Ok(()),
        Some(value) => {
            out.fixed(Kind::Assign)?;
            put_initialiser(out, &value.value)
        }
    }
}
