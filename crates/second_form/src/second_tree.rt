// The items that a tree says.
ghost use Rattle.std.specs.Prelude.{◌≡◌, IfOk};
ghost use Rattle.std.specs.Option.{option_map};
ghost use Rattle.second_form.specs.declared.second_items.SmallStmt.TheVariants.{Return as SomeReturn};
ghost use Rattle.second_form.specs.SecondForm.{all_of, number_of, put_of, call_of, called_of, statement_of, is_int, is_plain, is_local, item_with, item_of, items_of};

use crate::second_items::{Item, SecondForm, SmallStmt, SmallStmts};
use cc_base::Name;
use std::alloc::{AllocError, Global};
use text_grammar::{BaseKind, Call, Expr, External, Head, Linkage, Simple, Stmt};

// A number that is an `int`.
fn number_of(tree: &Expr) -> Option<u32>
    ensures { result ≡ number_of tree.now }
{
    match tree {
        Expr::Number(_, value, false) => Some(*value),
        _ => None,
    }
}

fn put_of(arguments: &[Expr]) -> Option<SmallStmt>
    ensures { result ≡ put_of arguments.now }
{
    match arguments {
        [argument] => Some(SmallStmt::Put(number_of(argument)?)),
        _ => None,
    }
}

fn call_of(alloc: Global, name: &[u8], arguments: &[Expr]) -> Result<Option<SmallStmt>, AllocError>
    ensures { IfOk result (λ statement. statement ≡ call_of name.now arguments.now) }
{
    match arguments {
        [] => Ok(Some(SmallStmt::Call(Name::from_slice(alloc, name)?))),
        _ => Ok(None),
    }
}

fn called_of(alloc: Global, call: &Call) -> Result<Option<SmallStmt>, AllocError>
    ensures { IfOk result (λ statement. statement ≡ called_of call.now) }
{
    let name = call.name.bytes.as_slice();
    let arguments = call.arguments.as_slice();
    if name == b"putbyte".as_slice() {
        Ok(put_of(arguments))
    } else {
        call_of(alloc, name, arguments)
    }
}

fn returned_of(tree: &Expr) -> Option<SmallStmt>
    ensures { result ≡ option_map (λ n. SomeReturn n) (number_of tree.now) }
{
    Some(SmallStmt::Return(number_of(tree)?))
}

fn statement_of(alloc: Global, tree: &Stmt) -> Result<Option<SmallStmt>, AllocError>
    ensures { IfOk result (λ statement. statement ≡ statement_of tree.now) }
{
    match tree {
        Stmt::Simple(Simple::Call(call)) => called_of(alloc, call),
        Stmt::Return(_, Some(value)) => Ok(returned_of(value)),
        _ => Ok(None),
    }
}

fn statements_of(alloc: Global, body: &[Stmt]) -> Result<Option<SmallStmts>, AllocError>
    ensures { IfOk result (λ statements. statements ≡ all_of statement_of body.now) }
{
    let mut statements = SmallStmts::new(alloc);
    'body: for tree in body {
        let Some(statement) = statement_of(alloc, tree)? else {
            return Ok(None);
        };
        statements.push(statement)?;
    }
    Ok(Some(statements))
}

// `int ID ( void )`
fn is_plain(head: &Head) -> bool
    ensures { result ≡ is_plain head.now }
{
    matches!(head.base.kind, BaseKind::Int)
        && (!head.base.is_const && (head.stars == 0 && head.parameters.as_slice().is_empty()))
}

fn is_local(linkage: Linkage) -> Option<bool>
    ensures { result ≡ is_local linkage }
{
    match linkage {
        Linkage::Plain => Some(false),
        Linkage::Static => Some(true),
        Linkage::Extern => None,
    }
}

fn item_with(
    alloc: Global,
    head: &Head,
    body: Option<SmallStmts>,
) -> Result<Option<Item>, AllocError>
    ensures { IfOk result (λ item. item ≡ item_with head.now body) }
{
    if !is_plain(head) {
        return Ok(None);
    }
    let Some(local) = is_local(head.linkage) else {
        return Ok(None);
    };
    let name = Name::from_slice(alloc, head.name.bytes.as_slice())?;
    Ok(Some(Item { local, name, body }))
}

fn item_of(alloc: Global, external: &External) -> Result<Option<Item>, AllocError>
    ensures { IfOk result (λ item. item ≡ item_of external.now) }
{
    match external {
        External::Struct(..) | External::Objects(..) => Ok(None),
        External::Prototype(head) => item_with(alloc, head, None),
        External::Function(head, locals, body) => {
            if !locals.as_slice().is_empty() {
                return Ok(None);
            }
            match statements_of(alloc, body.as_slice())? {
                Some(statements) => item_with(alloc, head, Some(statements)),
                None => Ok(None),
            }
        }
    }
}

/// The items of a tree, where each of its declarations and definitions is one.
pub(crate) fn items_of(alloc: Global, tree: &[External]) -> Result<Option<SecondForm>, AllocError>
    ensures { IfOk result (λ items. items ≡ items_of tree.now) }
{
    let mut items = SecondForm::new(alloc);
    'tree: for external in tree {
        let Some(item) = item_of(alloc, external)? else {
            return Ok(None);
        };
        items.push(item)?;
    }
    Ok(Some(items))
}
