// The tokens of expressions.
ghost use Rattle.std.specs.Prelude.{◌≡◌, ◌++◌, OnOk};
ghost use Rattle.text_print.specs.Canonical.{is_tight, is_infixed, printed, operand, target, expr_tokens, parenthesised};

use crate::pieces::Pieces;
use crate::signs::{operator_kind, prefix_kind};
use crate::types::put_type;
use std::alloc::AllocError;
use text_grammar::{Expr, Kind};

// Whether it stands alone: it is no operator, cast or `sizeof`.
fn is_tight(tree: &Expr) -> bool
    ensures { result ≡ is_tight (printed tree.now).form }
{
    match tree {
        Expr::Name(..) | Expr::Number(..) | Expr::Character(..) => true,
        Expr::Index(..) | Expr::Member(..) | Expr::Arrow(..) => true,
        Expr::Unary(..) | Expr::Binary(..) => false,
        Expr::Cast(..) | Expr::SizeofType(..) | Expr::Sizeof(..) => false,
    }
}

fn is_infixed(tree: &Expr) -> bool
    ensures { result ≡ is_infixed (printed tree.now).form }
{
    match tree {
        Expr::Binary(..) => true,
        Expr::Name(..) | Expr::Number(..) | Expr::Character(..) => false,
        Expr::Index(..) | Expr::Member(..) | Expr::Arrow(..) => false,
        Expr::Unary(..) | Expr::Cast(..) | Expr::SizeofType(..) | Expr::Sizeof(..) => false,
    }
}

/// An expression in parentheses.
#[cycle(expression)]
pub fn put_parenthesised<'a>(out: &mut Pieces<'a>, tree: &'a Expr) -> Result<(), AllocError>
    ensures { OnOk result (out.new ≡ out.old ++ parenthesised (expr_tokens tree.now)) }
{
    out.fixed(Kind::LParen)?;
    put_expr(out, tree)?;
    out.fixed(Kind::RParen)
}

// An operand, in parentheses exactly where it is an operator, a cast or `sizeof`.
#[cycle(expression)]
fn put_operand<'a>(out: &mut Pieces<'a>, tree: &'a Expr) -> Result<(), AllocError>
    ensures { OnOk result (out.new ≡ out.old ++ operand (printed tree.now)) }
{
    if is_tight(tree) {
        put_expr(out, tree)
    } else {
        put_parenthesised(out, tree)
    }
}

#[cycle(expression)]
pub fn put_expr<'a>(out: &mut Pieces<'a>, tree: &'a Expr) -> Result<(), AllocError>
    ensures { OnOk result (out.new ≡ out.old ++ expr_tokens tree.now) }
{
    match tree {
        Expr::Name(_, bytes) => out.name(bytes.as_slice()),
        Expr::Number(_, value, is_unsigned) => out.number(*value, *is_unsigned),
        Expr::Character(_, byte) => out.character(*byte),
        Expr::Unary(_, op, inner) => {
            out.fixed(prefix_kind(*op))?;
            put_operand(out, inner.get())?;
            Ok(())
        }
        Expr::Binary(_, op, left, right) => {
            put_operand(out, left.get())?;
            out.fixed(operator_kind(*op))?;
            put_operand(out, right.get())?;
            Ok(())
        }
        Expr::Cast(_, to, inner) => {
            put_type(out, to)?;
            put_operand(out, inner.get())?;
            Ok(())
        }
        Expr::SizeofType(_, to) => {
            out.fixed(Kind::KwSizeof)?;
            put_type(out, to)?;
            Ok(())
        }
        Expr::Sizeof(_, inner) => {
            out.fixed(Kind::KwSizeof)?;
            put_operand(out, inner.get())?;
            Ok(())
        }
        Expr::Index(_, whole, index) => {
            put_operand(out, whole.get())?;
            out.fixed(Kind::LBracket)?;
            put_expr(out, index.get())?;
            out.fixed(Kind::RBracket)?;
            Ok(())
        }
        Expr::Member(_, whole, bytes) => {
            put_operand(out, whole.get())?;
            out.fixed(Kind::Dot)?;
            out.name(bytes.as_slice())?;
            Ok(())
        }
        Expr::Arrow(_, whole, bytes) => {
            put_operand(out, whole.get())?;
            out.fixed(Kind::Arrow)?;
            out.name(bytes.as_slice())?;
            Ok(())
        }
    }
}

/// What stands before `=`, in parentheses exactly where it has an operator between operands.
pub fn put_target<'a>(out: &mut Pieces<'a>, tree: &'a Expr) -> Result<(), AllocError>
    ensures { OnOk result (out.new ≡ out.old ++ target (printed tree.now)) }
{
    if is_infixed(tree) {
        put_parenthesised(out, tree)
    } else {
        put_expr(out, tree)
    }
}
