// The canonical text of a tree.
ghost use Rattle.std.specs.Prelude.{◌≡◌, IfOk};
ghost use Rattle.text_print.specs.Canonical.{canonical_text};

use crate::externals::put_tree;
use crate::pieces::Pieces;
use crate::writing::write_spaced;
use cc_base::Text;
use std::alloc::{AllocError, Global};
use text_grammar::Tree;

/// The canonical text of a tree, in time and memory linear in that text: its canonical tokens with single spaces between
/// them, and a newline. Only want of memory keeps it from coming.
pub fn print(alloc: Global, tree: &Tree) -> Result<Text, AllocError>
    ensures { IfOk result (λ text. text ≡ canonical_text tree.now) }
{
    let mut pieces = Pieces::new(alloc);
    put_tree(&mut pieces, tree.as_slice())?;
    let mut text = Vec::new(alloc);
    write_spaced(&mut text, pieces.as_slice())?;
    text.push(b'\n')?;
    Ok(Text::from_vec(text))
}
