// What rows and typed statements have to do with one another.
ghost use Rattle.std.specs.Prelude.{◌≡◌, Bool, List, map, true};
ghost use Rattle.text_grammar.specs.declared.tree.Stmt.{Stmt};
ghost use Rattle.typing_types.specs.Types.{Derived};
ghost use Rattle.typing_scopes.specs.Visible.{Visible};
ghost use Rattle.typing_expressions.specs.Judgements.{agrees};
ghost use Rattle.typing_statements.specs.Statements.{all_rows, block, stmt_finding};

use typing_expressions::broken_expressions_have_no_type;

/// A body that breaks no rule is typed, and one that breaks a rule is not.
pub fn broken_bodies_are_not_typed()
    ensures { (scope : Visible) (result : Derived) (body : List Stmt) (b : Bool) → agrees (all_rows (map (stmt_finding scope result) body) b) (block (map (stmt_finding scope result) body) b) ≡ true }
{
    broken_expressions_have_no_type();
}
