// Laws of the grammar (`specs/Grammar.antt`).
ghost use Rattle.std.specs.Prelude.{◌≡◌, List};
ghost use Rattle.text_grammar.specs.Grammar.{Symbol, Reads, ReadsExpr};
ghost use Rattle.text_grammar.specs.declared.tree.Expr.{Expr as ExprTree};
ghost use Rattle.text_grammar.specs.declared.tree.External.{External as Declaration};

/// Tokens are one unit at most: the grammar gives them one tree, or none.
pub fn one_tree()
    ensures { (tokens : List Symbol) (tree other : List Declaration) → Reads tokens tree → Reads tokens other → other ≡ tree }
{}

/// Tokens are one expression at most.
pub fn one_tree_of_an_expression()
    ensures { (tokens : List Symbol) (tree other : ExprTree) → ReadsExpr tokens tree → ReadsExpr tokens other → other ≡ tree }
{}
