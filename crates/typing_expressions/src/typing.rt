// The types of expressions.
ghost use Rattle.std.specs.Prelude.{◌≡◌, ◌++◌, OnOk, IfOk};
ghost use Rattle.typing_faults.specs.Faults.{told};
ghost use Rattle.typing_expressions.specs.Judgements.{of_part, of_parts, node_in, broken_in};
ghost use Rattle.typing_expressions.specs.Access.{index, member, arrow};
ghost use Rattle.typing_expressions.specs.Operations.{unary, binary};
ghost use Rattle.typing_expressions.specs.Conversions.{cast, sizeof};
ghost use Rattle.typing_expressions.specs.Expressions.{rows, node_of};

use crate::access::{arrow, index, member};
use crate::binary::binary;
use crate::conversions::{cast, sizeof, sizeof_type};
use crate::judgement::settled;
use crate::leaves::{character, named, number};
use crate::node::Node;
use crate::unary::unary;
use std::alloc::{AllocError, Global};
use text_grammar::{BinaryOp, Expr, TypeName, UnaryOp};
use typing_faults::Faults;
use typing_scopes::Scope;

#[cycle(expression)]
#[tactic(auto, using(typing_faults::specs::laws::Faults::told_append))]
fn typed_unary<'t>(
    alloc: Global,
    scope: &Scope<'t>,
    faults: &mut Faults,
    at: u32,
    op: UnaryOp,
    tree: &Expr,
) -> Result<Option<Node<'t>>, AllocError>
    ensures rows { OnOk result (faults.new ≡ told faults.old (rows scope.now tree.now ++ broken_in (of_part (unary at op) (node_of scope.now tree.now)))) }
    ensures node { IfOk result (λ n. n ≡ node_in (of_part (unary at op) (node_of scope.now tree.now))) }
{
    let part = typed(alloc, scope, faults, tree)?;
    let rule = unary(alloc, at, op, part)?;
    Ok(settled(rule, faults))
}

#[cycle(expression)]
#[tactic(auto, using(typing_faults::specs::laws::Faults::told_append))]
fn typed_cast<'t>(
    alloc: Global,
    scope: &Scope<'t>,
    faults: &mut Faults,
    at: u32,
    to: &TypeName,
    tree: &Expr,
) -> Result<Option<Node<'t>>, AllocError>
    ensures rows { OnOk result (faults.new ≡ told faults.old (rows scope.now tree.now ++ broken_in (of_part (cast scope.now at to.now) (node_of scope.now tree.now)))) }
    ensures node { IfOk result (λ n. n ≡ node_in (of_part (cast scope.now at to.now) (node_of scope.now tree.now))) }
{
    let part = typed(alloc, scope, faults, tree)?;
    let rule = cast(alloc, scope, at, to, part)?;
    Ok(settled(rule, faults))
}

#[cycle(expression)]
#[tactic(auto, using(typing_faults::specs::laws::Faults::told_append))]
fn typed_sizeof<'t>(
    alloc: Global,
    scope: &Scope<'t>,
    faults: &mut Faults,
    at: u32,
    tree: &Expr,
) -> Result<Option<Node<'t>>, AllocError>
    ensures rows { OnOk result (faults.new ≡ told faults.old (rows scope.now tree.now ++ broken_in (of_part (sizeof scope.now at) (node_of scope.now tree.now)))) }
    ensures node { IfOk result (λ n. n ≡ node_in (of_part (sizeof scope.now at) (node_of scope.now tree.now))) }
{
    let part = typed(alloc, scope, faults, tree)?;
    Ok(settled(sizeof(scope, at, part), faults))
}

#[cycle(expression)]
#[tactic(auto, using(typing_faults::specs::laws::Faults::told_append))]
fn typed_member<'t>(
    alloc: Global,
    scope: &Scope<'t>,
    faults: &mut Faults,
    at: u32,
    tree: &Expr,
    name: &[u8],
) -> Result<Option<Node<'t>>, AllocError>
    ensures rows { OnOk result (faults.new ≡ told faults.old (rows scope.now tree.now ++ broken_in (of_part (member scope.now at name.now) (node_of scope.now tree.now)))) }
    ensures node { IfOk result (λ n. n ≡ node_in (of_part (member scope.now at name.now) (node_of scope.now tree.now))) }
{
    let part = typed(alloc, scope, faults, tree)?;
    let rule = member(alloc, scope, at, name, part)?;
    Ok(settled(rule, faults))
}

#[cycle(expression)]
#[tactic(auto, using(typing_faults::specs::laws::Faults::told_append))]
fn typed_arrow<'t>(
    alloc: Global,
    scope: &Scope<'t>,
    faults: &mut Faults,
    at: u32,
    tree: &Expr,
    name: &[u8],
) -> Result<Option<Node<'t>>, AllocError>
    ensures rows { OnOk result (faults.new ≡ told faults.old (rows scope.now tree.now ++ broken_in (of_part (arrow scope.now at name.now) (node_of scope.now tree.now)))) }
    ensures node { IfOk result (λ n. n ≡ node_in (of_part (arrow scope.now at name.now) (node_of scope.now tree.now))) }
{
    let part = typed(alloc, scope, faults, tree)?;
    let rule = arrow(alloc, scope, at, name, part)?;
    Ok(settled(rule, faults))
}

// An operator of which the left part is typed.
#[cycle(expression)]
#[tactic(auto, using(typing_faults::specs::laws::Faults::told_append))]
fn typed_binary<'t>(
    alloc: Global,
    scope: &Scope<'t>,
    faults: &mut Faults,
    at: u32,
    op: BinaryOp,
    left: Option<Node<'t>>,
    tree: &Expr,
) -> Result<Option<Node<'t>>, AllocError>
    ensures rows { OnOk result (faults.new ≡ told faults.old (rows scope.now tree.now ++ broken_in (of_parts (binary scope.now.layouts at op) left.entry (node_of scope.now tree.now)))) }
    ensures node { IfOk result (λ n. n ≡ node_in (of_parts (binary scope.now.layouts at op) left.entry (node_of scope.now tree.now))) }
{
    let right = typed(alloc, scope, faults, tree)?;
    let rule = binary(alloc, scope.layouts(), at, op, left, right)?;
    Ok(settled(rule, faults))
}

// An element of an array that is typed.
#[cycle(expression)]
#[tactic(auto, using(typing_faults::specs::laws::Faults::told_append))]
fn typed_index<'t>(
    alloc: Global,
    scope: &Scope<'t>,
    faults: &mut Faults,
    at: u32,
    array: Option<Node<'t>>,
    tree: &Expr,
) -> Result<Option<Node<'t>>, AllocError>
    ensures rows { OnOk result (faults.new ≡ told faults.old (rows scope.now tree.now ++ broken_in (of_parts (index scope.now.layouts at) array.entry (node_of scope.now tree.now)))) }
    ensures node { IfOk result (λ n. n ≡ node_in (of_parts (index scope.now.layouts at) array.entry (node_of scope.now tree.now))) }
{
    let subscript = typed(alloc, scope, faults, tree)?;
    let rule = index(alloc, scope.layouts(), at, array, subscript)?;
    Ok(settled(rule, faults))
}

/// What an expression is in the typed unit, where it breaks no rule; the rows that it breaks are told. The only error is want of
/// memory, which a type with 2^32 stars comes to as well.
#[cycle(expression)]
#[tactic(auto, using(typing_faults::specs::laws::Faults::told_append))]
pub fn typed<'t>(
    alloc: Global,
    scope: &Scope<'t>,
    faults: &mut Faults,
    tree: &Expr,
) -> Result<Option<Node<'t>>, AllocError>
    ensures rows { OnOk result (faults.new ≡ told faults.old (rows scope.now tree.now)) }
    ensures node { IfOk result (λ n. n ≡ node_of scope.now tree.now) }
{
    match tree {
        Expr::Name(at, name) => {
            let rule = named(scope, *at, name.as_slice());
            Ok(settled(Some(rule), faults))
        }
        Expr::Number(_, value, is_unsigned) => {
            Ok(settled(Some(number(*value, *is_unsigned)), faults))
        }
        Expr::Character(_, byte) => Ok(settled(Some(character(*byte)), faults)),
        Expr::Unary(at, op, part) => { typed_unary(alloc, scope, faults, *at, *op, part.get()) }
        Expr::Binary(at, op, left, right) => {
            let left = typed(alloc, scope, faults, left.get())?;
            typed_binary(alloc, scope, faults, *at, *op, left, right.get())
        }
        Expr::Cast(at, to, part) => typed_cast(alloc, scope, faults, *at, to, part.get()),
        Expr::SizeofType(at, name) => {
            let rule = sizeof_type(scope, *at, name)?;
            Ok(settled(Some(rule), faults))
        }
        Expr::Sizeof(at, part) => typed_sizeof(alloc, scope, faults, *at, part.get()),
        Expr::Index(at, array, subscript) => {
            let array = typed(alloc, scope, faults, array.get())?;
            typed_index(alloc, scope, faults, *at, array, subscript.get())
        }
        Expr::Member(at, part, name) => {
            typed_member(alloc, scope, faults, *at, part.get(), name.as_slice())
        }
        Expr::Arrow(at, part, name) => {
            typed_arrow(alloc, scope, faults, *at, part.get(), name.as_slice())
        }
    }
}
