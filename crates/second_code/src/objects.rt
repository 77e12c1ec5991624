// The object of a unit.
ghost use Rattle.std.specs.Prelude.{List, None, ◌≡◌, IfOk, IfSome};
ghost use Rattle.second_form.specs.declared.second_items.Item.{Item};
ghost use Rattle.second_form.specs.SecondForm.{IsSecondForm};
ghost use Rattle.second_code.specs.Objects.{IsObjectOf};

use crate::parts::object_parts;
use crate::weights::is_light;
use elf_file::write_object;
use second_form::second_form;
use std::alloc::{AllocError, Global};
use text_grammar::Tree;

/// Compiles a tree of the second form: the file of its object, an ELF relocatable file for i386. It is `None` exactly where the
/// tree is not of the form. No other unit has a part in it. The time is linear in the tree, but for the look-ups of names. The only
/// error is want of memory, which a tree that no text is long enough to have comes to as well.
pub fn unit_object(alloc: Global, tree: &Tree) -> Result<Option<Vec<u8>>, AllocError>
    ensures some { IfOk result (λ o. IfSome o (λ file. IsObjectOf tree.now file.items)) }
    ensures none { IfOk result (λ o. o ≡ None → (items : List Item) → ¬ IsSecondForm tree.now items) }
{
    let Some(items) = second_form(alloc, tree)? else {
        return Ok(None);
    };
    if !is_light(items.as_slice()) {
        return Err(AllocError);
    }
    let parts = object_parts(alloc, &items)?;
    let file = write_object(alloc, &parts)?;
    Ok(Some(file))
}
