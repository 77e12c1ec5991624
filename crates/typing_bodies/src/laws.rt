// What rows and functions have to do with one another.
ghost use Rattle.std.specs.Prelude.{◌≡◌, List, [], true, is_some};
ghost use Rattle.text_grammar.specs.declared.tree.Head.{Head};
ghost use Rattle.text_grammar.specs.declared.tree.Locals.{Locals};
ghost use Rattle.text_grammar.specs.declared.tree.Stmt.{Stmt};
ghost use Rattle.typing_scopes.specs.Visible.{Visible};
ghost use Rattle.typing_declarations.specs.declared.whole.Whole.{Whole};
ghost use Rattle.typing_bodies.specs.Functions.{function_rows, function_of};

use typing_expressions::broken_expressions_have_no_type;
use typing_statements::broken_bodies_are_not_typed;

/// A function that breaks no rule has its place in the typed unit.
pub fn unbroken_functions_are_typed()
    ensures { (whole : Whole) (scope : Visible) (head : Head) (locals : List Locals) (body : List Stmt) → function_rows whole scope head locals body ≡ [] → is_some (function_of whole scope head locals body) ≡ true }
{
    broken_expressions_have_no_type();
    broken_bodies_are_not_typed();
}
