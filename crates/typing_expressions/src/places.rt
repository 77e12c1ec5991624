// The places of expressions.
ghost use Rattle.std.specs.Prelude.{◌≡◌};
ghost use Rattle.typing_expressions.specs.Places.{text_place};

use text_grammar::Expr;

/// The place of an expression: that of its own token.
pub fn text_place(tree: &Expr) -> u32
    ensures { result ≡ text_place tree.now }
{
    match tree {
        Expr::Name(at, _) | Expr::Number(at, ..) | Expr::Character(at, _) => *at,
        Expr::Unary(at, ..) | Expr::Binary(at, ..) | Expr::Cast(at, ..) => *at,
        Expr::SizeofType(at, _) | Expr::Sizeof(at, _) => *at,
        Expr::Index(at, ..) | Expr::Member(at, ..) | Expr::Arrow(at, ..) => *at,
    }
}
