// Laws of the canonical tokens.
ghost use Rattle.std.specs.Prelude.{ℕ, List, Result};
ghost use Rattle.std.specs.List.{All};
ghost use Rattle.text_grammar.specs.Grammar.{Symbol, Reads};
ghost use Rattle.text_grammar.specs.declared.tree.External.{External as Declaration};
ghost use Rattle.text_grammar.specs.Scanning.{IsCut, Whole};
ghost use Rattle.text_print.specs.Canonical.{tokens_of, canonical_text};
ghost use Rattle.text_print.specs.Cut.{cut_at};
ghost use Rattle.text_print.specs.Placed.{placed, IsLexeme};
ghost use Rattle.text_print.specs.ReadBack.{ReadsBack};
ghost use Rattle.text_grammar.specs.declared.fault.SyntaxFault.{SyntaxFault as Fault};
ghost use Rattle.text_grammar.specs.Lexemes.{AreBytes};
ghost use Rattle.text_parser.specs.Parsing.{HasAnswer};
ghost use Rattle.text_print.specs.Reparsed.{KeepsLimits, IsTreeAgain, IsTreeOrLimit};

use text_grammar::tokens_are_lexemes;
use text_parser::one_answer;

/// The canonical tokens of a tree read as that tree with new places: where some tokens, whose names are words and no
/// keywords, and whose literals are numbers within their range and bytes, read as a tree, the tree's canonical tokens, with
/// single spaces between them from any place on, read as a tree that is the same but for places. It is the only one, by
/// `one_tree` of `text_grammar`.
pub fn canonical_tokens_read_back()
    ensures { (tokens : List Symbol) (tree : List Declaration) (at : ℕ) → Reads tokens tree → All IsLexeme tokens → ReadsBack (placed at (tokens_of tree)) tree }
{}

/// The canonical text of a tree is cut into its canonical tokens, each at its place, where some tokens, whose names are words
/// and no keywords, and whose literals are numbers within their range and bytes, read as the tree.
pub fn canonical_text_is_cut()
    ensures { (tokens : List Symbol) (tree : List Declaration) → Reads tokens tree → All IsLexeme tokens → IsCut 0 (canonical_text tree) (cut_at 0 (tokens_of tree)) Whole }
{}

/// `parse` reads what `print` gives. For the canonical text of a tree it answers the tree with new places; or the limit of
/// length or depth that this text does not keep; or want of memory; and no other fault. So it is for each tree that `parse`
/// answered for a text of bytes (`parsed`), and for each that some tokens read as, whose names are words and no keywords, and
/// whose literals are numbers within their range and bytes (`read`). Where the canonical text keeps the limits, only the tree
/// with new places and want of memory are left (`again`).
pub fn printed_text_parses_back()
    ensures read { (tokens : List Symbol) (tree : List Declaration) (answer : Result (List Declaration) Fault) → Reads tokens tree → All IsLexeme tokens → HasAnswer (canonical_text tree) answer → IsTreeOrLimit tree answer }
    ensures parsed { (text : List ℕ) (tree : List Declaration) (answer : Result (List Declaration) Fault) → AreBytes text → HasAnswer text (Ok tree) → HasAnswer (canonical_text tree) answer → IsTreeOrLimit tree answer }
    ensures again { (text : List ℕ) (tree : List Declaration) (answer : Result (List Declaration) Fault) → AreBytes text → HasAnswer text (Ok tree) → KeepsLimits tree → HasAnswer (canonical_text tree) answer → IsTreeAgain tree answer }
{
    one_answer();
    tokens_are_lexemes();
    canonical_tokens_read_back();
    canonical_text_is_cut();
}
