// Lists that are gathered item by item, and rows of what is converted.
ghost use Rattle.std.specs.Prelude.{◌≡◌, [], Some, OnOk, IfOk};
ghost use Rattle.typing_faults.specs.Faults.{told};
ghost use Rattle.typing_statements.specs.Gathering.{with_next, converted, converted_rows, condition, condition_rows};

use clight_unit::{Test, Value};
use sqlite_items::Items;
use std::alloc::{AllocError, Global};
use std::marker::Model;
use typing_expressions::{Node, assigned, test_of};
use typing_faults::{Faults, TypeKind};
use typing_types::CType;

/// A list that is gathered item by item, as long as none is missing. Contracts see the list, or that one was missing.
#[derive(Drop)]
pub struct Gathered<T> {
    items: Items<T>,
    is_whole: bool,
}

impl<T> Model for Gathered<T> {
    ghost use Rattle.std.specs.Prelude.{List, Option, Some, None, cond};

    ghost Value = { Option (List T) };

    ghost view = { λ g. cond g.is_whole (Some g.items) None };
}

impl<T: Drop> Gathered<T> {
    /// No items. It takes no memory.
    pub fn new(alloc: Global) -> Gathered<T>
        ensures { result ≡ Some [] }
    {
        Gathered {
            items: Items::new(alloc),
            is_whole: true,
        }
    }

    /// The next item, which may be missing.
    pub fn add(&mut self, item: Option<T>) -> Result<(), AllocError>
        ensures { OnOk result (self.new ≡ with_next self.old item) }
    {
        match item {
            Some(item) => {
                self.items.push(item)?;
                Ok(())
            }
            None => {
                self.is_whole = false;
                Ok(())
            }
        }
    }

    /// The list. None exactly where an item was missing.
    pub fn list(self) -> Option<Items<T>>
        ensures { result ≡ self }
    {
        if self.is_whole {
            Some(self.items)
        } else {
            None
        }
    }
}

/// An expression that is assigned to an object of a type, passed for it or returned as it. That it may not be is told as `Kind` at
/// this place.
pub fn convert(
    alloc: Global,
    faults: &mut Faults,
    at: u32,
    to: &CType<'_>,
    node: Option<Node<'_>>,
) -> Result<Option<Value>, AllocError>
    ensures rows { OnOk result (faults.new ≡ told faults.old (converted_rows at to.now node.entry)) }
    ensures value { IfOk result (λ v. v ≡ converted to.now node.entry) }
{
    let Some(node) = node else {
        return Ok(None);
    };
    let value = assigned(alloc, to, node)?;
    if value.is_none() {
        faults.add(TypeKind::Kind, at);
    }
    Ok(value)
}

/// An expression that is a condition. That it is none is told as `Kind` at this place.
pub fn ask(
    alloc: Global,
    faults: &mut Faults,
    at: u32,
    node: Option<Node<'_>>,
) -> Result<Option<Test>, AllocError>
    ensures rows { OnOk result (faults.new ≡ told faults.old (condition_rows at node.entry)) }
    ensures value { IfOk result (λ t. t ≡ condition node.entry) }
{
    let Some(node) = node else {
        return Ok(None);
    };
    let test = test_of(alloc, node)?;
    if test.is_none() {
        faults.add(TypeKind::Kind, at);
    }
    Ok(test)
}
