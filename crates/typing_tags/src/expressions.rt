// The tags in types and expressions.
ghost use Rattle.std.specs.Prelude.{◌≡◌, ◌++◌, OnOk};
ghost use Rattle.typing_tags.specs.Tags.{base_tags, expr_tags};

use crate::tag_list::TagList;
use std::alloc::AllocError;
use text_grammar::{Base, BaseKind, Expr};

/// The tag that a type begins with, where it is a struct.
pub(crate) fn see_base<'t>(out: &mut TagList<'t>, base: &'t Base) -> Result<(), AllocError>
    ensures { OnOk result (out.new ≡ out.old ++ base_tags base.now) }
{
    match &base.kind {
        BaseKind::Struct(tag) => out.push(tag.as_slice()),
        BaseKind::Int
        | BaseKind::Char
        | BaseKind::UnsignedInt
        | BaseKind::UnsignedChar
        | BaseKind::Void => Ok(()),
    }
}

/// The tags in an expression.
pub(crate) fn see_expr<'t>(out: &mut TagList<'t>, tree: &'t Expr) -> Result<(), AllocError>
    ensures { OnOk result (out.new ≡ out.old ++ expr_tags tree.now) }
{
    match tree {
        Expr::Name(..) | Expr::Number(..) | Expr::Character(..) => Ok(()),
        Expr::SizeofType(_, to) => {
            see_base(out, &to.base)?;
            Ok(())
        }
        Expr::Cast(_, to, part) => {
            see_base(out, &to.base)?;
            see_expr(out, part.get())?;
            Ok(())
        }
        Expr::Unary(_, _, part)
        | Expr::Sizeof(_, part)
        | Expr::Member(_, part, _)
        | Expr::Arrow(_, part, _) => {
            see_expr(out, part.get())?;
            Ok(())
        }
        Expr::Binary(_, _, left, right) | Expr::Index(_, left, right) => {
            see_expr(out, left.get())?;
            see_expr(out, right.get())?;
            Ok(())
        }
    }
}
