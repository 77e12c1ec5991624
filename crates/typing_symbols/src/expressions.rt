// The names in expressions.
ghost use Rattle.std.specs.Prelude.{◌≡◌, ◌++◌, OnOk};
ghost use Rattle.typing_symbols.specs.Sights.{use_of, name_sights, expr_sights_at, expr_sights};

use crate::names::Names;
use crate::sight::{How, Sights};
use std::alloc::AllocError;
use text_grammar::Expr;

fn use_of(is_measured: bool) -> How
    ensures { result ≡ use_of is_measured }
{
    if is_measured {
        How::Measured
    } else {
        How::Used
    }
}

/// A name, where nothing hides it.
pub fn see_name<'t>(
    out: &mut Sights<'t>,
    hidden: &Names<'t>,
    is_measured: bool,
    name: &'t [u8],
) -> Result<(), AllocError>
    ensures { OnOk result (out.new ≡ out.old ++ name_sights hidden.now is_measured name.now) }
{
    if hidden.has(name) {
        return Ok(());
    }
    out.push(name, use_of(is_measured))
}

// The names in an expression, which may stand under `sizeof`.
fn see_part<'t>(
    out: &mut Sights<'t>,
    hidden: &Names<'t>,
    is_measured: bool,
    tree: &'t Expr,
) -> Result<(), AllocError>
    ensures { OnOk result (out.new ≡ out.old ++ expr_sights_at hidden.now tree.now is_measured) }
{
    match tree {
        Expr::Name(_, name) => see_name(out, hidden, is_measured, name.as_slice()),
        Expr::Number(..) | Expr::Character(..) | Expr::SizeofType(..) => Ok(()),
        Expr::Unary(_, _, part) | Expr::Cast(_, _, part) => {
            see_part(out, hidden, is_measured, part.get())?;
            Ok(())
        }
        Expr::Binary(_, _, left, right) => {
            see_part(out, hidden, is_measured, left.get())?;
            see_part(out, hidden, is_measured, right.get())?;
            Ok(())
        }
        Expr::Sizeof(_, part) => {
            see_part(out, hidden, true, part.get())?;
            Ok(())
        }
        Expr::Index(_, array, index) => {
            see_part(out, hidden, is_measured, array.get())?;
            see_part(out, hidden, is_measured, index.get())?;
            Ok(())
        }
        Expr::Member(_, part, _) | Expr::Arrow(_, part, _) => {
            see_part(out, hidden, is_measured, part.get())?;
            Ok(())
        }
    }
}

/// The names in an expression.
pub fn see_expr<'t>(
    out: &mut Sights<'t>,
    hidden: &Names<'t>,
    tree: &'t Expr,
) -> Result<(), AllocError>
    ensures { OnOk result (out.new ≡ out.old ++ expr_sights hidden.now tree.now) }
{
    see_part(out, hidden, false, tree)
}
