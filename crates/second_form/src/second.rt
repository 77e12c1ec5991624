// The second form of a unit's tree.
ghost use Rattle.std.specs.Prelude.{◌≡◌, List, IfOk, IfSome, Some};
ghost use Rattle.second_form.specs.declared.second_items.Item.{Item};
ghost use Rattle.second_form.specs.SecondForm.{IsSecondForm};

use crate::second_items::SecondForm;
use crate::second_names::keep_names;
use crate::second_rules::are_items;
use crate::second_tree::items_of;
use std::alloc::{AllocError, Global};
use text_grammar::Tree;

/// Reads a tree of the second form: functions that emit bytes, call one another and return. It is `None` exactly where the
/// tree is not of that form. The time is linear in the tree, but for the look-ups of names. The only error is want of memory.
pub fn second_form(alloc: Global, tree: &Tree) -> Result<Option<SecondForm>, AllocError>
    ensures some { IfOk result (λ o. IfSome o (λ items. IsSecondForm tree.now items)) }
    ensures only { IfOk result (λ o. (items : List Item) → IsSecondForm tree.now items → o ≡ Some items) }
{
    let Some(items) = items_of(alloc, tree.as_slice())? else {
        return Ok(None);
    };
    if are_items(items.as_slice()) && keep_names(alloc, items.as_slice())? {
        Ok(Some(items))
    } else {
        Ok(None)
    }
}
