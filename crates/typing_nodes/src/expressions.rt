// The nodes of expressions.
ghost use Rattle.std.specs.Prelude.{◌≡◌};
ghost use Rattle.typing_nodes.specs.Nodes.{told_nodes, expr_nodes};

use crate::counts::together;
use text_grammar::Expr;

/// The nodes of an expression. What stands under `sizeof` counts nothing.
pub fn expr_nodes(tree: &Expr) -> u32
    ensures { result ≡ told_nodes (expr_nodes tree.now) }
{
    match tree {
        Expr::Name(..) | Expr::Number(..) | Expr::Character(..) => 1,
        Expr::SizeofType(..) | Expr::Sizeof(..) => 1,
        Expr::Unary(_, _, part) | Expr::Cast(_, _, part) => together(1, expr_nodes(part.get())),
        Expr::Binary(_, _, left, right) => {
            let parts = together(expr_nodes(left.get()), expr_nodes(right.get()));
            together(1, parts)
        }
        Expr::Index(_, array, index) => {
            let parts = together(expr_nodes(array.get()), expr_nodes(index.get()));
            together(1, parts)
        }
        Expr::Member(_, part, _) | Expr::Arrow(_, part, _) => {
            together(1, expr_nodes(part.get()))
        }
    }
}
