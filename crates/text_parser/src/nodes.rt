// Nodes of expressions, with the places of their tokens.
ghost use Rattle.std.specs.Prelude.{◌≡◌, IfOk};
ghost use Rattle.text_grammar.specs.declared.kind.Kind.TheVariants as k;
ghost use Rattle.text_grammar.specs.laws.Programs.{number_of, character_of};

use crate::lexeme::Lexeme;
use sqlite_items::Boxed;
use std::alloc::{AllocError, Global};
use text_grammar::{BinaryOp, Expr, TypeName, UnaryOp};

pub fn name(alloc: Global, x: &Lexeme<'_>) -> Result<Expr, AllocError>
    ensures { IfOk result (λ t. t ≡ Expr.Name x.now.at x.now.text) }
{
    Ok(Expr::Name(x.at(), x.bytes(alloc)?))
}

pub fn number(x: &Lexeme<'_>) -> Expr
    requires { x.now.kind ≡ k.Num }
    ensures { result ≡ number_of x.now }
{
    let number = x.number();
    Expr::Number(number.at, number.value, number.is_unsigned)
}

pub fn character(x: &Lexeme<'_>) -> Expr
    requires { x.now.kind ≡ k.Char }
    ensures { result ≡ character_of x.now }
{
    Expr::Character(x.at(), x.character())
}

pub fn unary(alloc: Global, x: &Lexeme<'_>, op: UnaryOp, operand: Expr) -> Result<Expr, AllocError>
    ensures { IfOk result (λ t. t ≡ Expr.Unary x.now.at op operand) }
{
    Ok(Expr::Unary(x.at(), op, Boxed::new(alloc, operand)?))
}

pub fn binary(
    alloc: Global,
    x: &Lexeme<'_>,
    op: BinaryOp,
    left: Expr,
    right: Expr,
) -> Result<Expr, AllocError>
    ensures { IfOk result (λ t. t ≡ Expr.Binary x.now.at op left right) }
{
    Ok(Expr::Binary(
        x.at(),
        op,
        Boxed::new(alloc, left)?,
        Boxed::new(alloc, right)?,
    ))
}

pub fn cast(alloc: Global, x: &Lexeme<'_>, to: TypeName, operand: Expr) -> Result<Expr, AllocError>
    ensures { IfOk result (λ t. t ≡ Expr.Cast x.now.at to operand) }
{
    Ok(Expr::Cast(x.at(), to, Boxed::new(alloc, operand)?))
}

pub fn sizeof(alloc: Global, x: &Lexeme<'_>, operand: Expr) -> Result<Expr, AllocError>
    ensures { IfOk result (λ t. t ≡ Expr.Sizeof x.now.at operand) }
{
    Ok(Expr::Sizeof(x.at(), Boxed::new(alloc, operand)?))
}

pub fn index(alloc: Global, x: &Lexeme<'_>, whole: Expr, index: Expr) -> Result<Expr, AllocError>
    ensures { IfOk result (λ t. t ≡ Expr.Index x.now.at whole index) }
{
    Ok(Expr::Index(x.at(), Boxed::new(alloc, whole)?, Boxed::new(alloc, index)?))
}

pub fn member(alloc: Global, y: &Lexeme<'_>, whole: Expr) -> Result<Expr, AllocError>
    ensures { IfOk result (λ t. t ≡ Expr.Member y.now.at whole y.now.text) }
{
    Ok(Expr::Member(y.at(), Boxed::new(alloc, whole)?, y.bytes(alloc)?))
}

pub fn arrow(alloc: Global, y: &Lexeme<'_>, whole: Expr) -> Result<Expr, AllocError>
    ensures { IfOk result (λ t. t ≡ Expr.Arrow y.now.at whole y.now.text) }
{
    Ok(Expr::Arrow(y.at(), Boxed::new(alloc, whole)?, y.bytes(alloc)?))
}
