// What rows and types have to do with one another.
ghost use Rattle.std.specs.Prelude.{◌≡◌, true};
ghost use Rattle.text_grammar.specs.declared.tree.Expr.{Expr};
ghost use Rattle.typing_scopes.specs.Visible.{Visible};
ghost use Rattle.typing_expressions.specs.Judgements.{agrees};
ghost use Rattle.typing_expressions.specs.Expressions.{rows, node_of};

/// An expression that breaks no rule has a type, and one that breaks a rule has none.
pub fn broken_expressions_have_no_type()
    ensures { (scope : Visible) (e : Expr) → agrees (rows scope e) (node_of scope e) ≡ true }
{}
