// The nodes of statements.
ghost use Rattle.std.specs.Prelude.{◌≡◌, [], ◌∷◌, ◌++◌, get_or, set, reverse, option_map, OnOk, IfOk};
ghost use Rattle.rtl_lang.specs.declared.syntax.RtlNode.TheVariants as node;
ghost use Rattle.rtl_gen.specs.Trees.{tree, code, body_code};
ghost use Rattle.rtl_gen.specs.Translation.{lay, lay_return};

use crate::arguments::{homes, operands};
use crate::expressions::{above, home, into, operand, push};
use core_lang::{Expression, Statement};
use rtl_lang::RtlNode;
use std::alloc::{AllocError, Global};

// Where an exit leads: the innermost block's end is the last of the list.
fn exit(exits: &[u32], number: u32, end: u32) -> u32
    ensures { result ≡ get_or (reverse exits.now) number end }
{
    let depth = exits.len();
    if (number as usize) < depth {
        exits[depth - 1 - number as usize]
    } else {
        end
    }
}

// The nodes of a return.
fn returned(
    graph: &mut Vec<RtlNode>,
    value: &Option<Expression>,
    scratch: u32,
) -> Result<u32, AllocError>
    ensures { IfOk result (λ number. (number, graph.new.items) ≡ lay_return graph.old.items (option_map tree value.now) scratch) }
{
    match value {
        None => push(graph, RtlNode::Return { value: None }),
        Some(e) => {
            let node = RtlNode::Return {
                value: Some(home(scratch, e)),
            };
            let last = push(graph, node)?;
            operand(graph, e, scratch, last)
        }
    }
}

// A block's end is the innermost exit inside it.
#[tactic(auto, using(crate::proofs::Lists::inner))]
fn enter(exits: &mut Vec<u32>, end: u32) -> Result<(), AllocError>
    ensures items { OnOk result (exits.new.items ≡ exits.old.items ++ end ∷ []) }
    ensures inner { OnOk result (reverse exits.new.items ≡ end ∷ reverse exits.old.items) }
{
    exits.push(end)?;
    Ok(())
}

// The head of a loop gets its way, once its body is laid.
#[tactic(auto, using(std::proofs::lemmas::List::set_past))]
fn patch(graph: &mut Vec<RtlNode>, head: u32, at: u32)
    ensures { graph.new.items ≡ set graph.old.items head (node.Nop at) }
{
    let head = head as usize;
    if head < graph.len() {
        graph[head] = RtlNode::Nop { next: at };
    }
}

/// The nodes of a list of statements, the last one's first.
#[cycle(statement)]
#[tactic(auto, using(crate::proofs::Lists::rest_whole, crate::proofs::Lists::rest_none, crate::proofs::Lists::rest_more))]
pub fn sequence(
    alloc: Global,
    graph: &mut Vec<RtlNode>,
    statements: &[Statement],
    scratch: u32,
    end: u32,
    next: u32,
    exits: &mut Vec<u32>,
) -> Result<u32, AllocError>
    ensures laid { IfOk result (λ number. (number, graph.new.items) ≡ lay graph.old.items scratch end (body_code statements.now) next (reverse exits.old.items)) }
    ensures exits { IfOk result (λ number. exits.new.items ≡ exits.old.items) }
{
    let mut at = next;
    'statements: for left in (0..statements.len()).rev() {
        at = statement(alloc, graph, &statements[left], scratch, end, at, exits)?;
    }
    Ok(at)
}

// The nodes of a statement.
#[cycle(statement)]
fn statement(
    alloc: Global,
    graph: &mut Vec<RtlNode>,
    s: &Statement,
    scratch: u32,
    end: u32,
    next: u32,
    exits: &mut Vec<u32>,
) -> Result<u32, AllocError>
    ensures laid { IfOk result (λ number. (number, graph.new.items) ≡ lay graph.old.items scratch end (code s.now) next (reverse exits.old.items)) }
    ensures exits { IfOk result (λ number. exits.new.items ≡ exits.old.items) }
{
    match s {
        Statement::Set(number, e) => into(graph, e, scratch, *number, next),
        Statement::Store(width, place, value) => {
            let other = above(scratch)?;
            let node = RtlNode::Store {
                width: *width,
                place: home(scratch, place),
                value: home(other, value),
                next,
            };
            let last = push(graph, node)?;
            let second = operand(graph, value, other, last)?;
            operand(graph, place, scratch, second)
        }
        Statement::Call(to, name, arguments) => {
            let node = RtlNode::Call {
                name: *name,
                args: homes(alloc, scratch, arguments.as_slice())?,
                to: *to,
                next,
            };
            let last = push(graph, node)?;
            operands(graph, arguments.as_slice(), scratch, last)
        }
        Statement::If(test, yes, no) => {
            let no_at = sequence(alloc, graph, no.as_slice(), scratch, end, next, exits)?;
            let yes_at = sequence(alloc, graph, yes.as_slice(), scratch, end, next, exits)?;
            let node = RtlNode::Branch {
                on: home(scratch, test),
                yes: yes_at,
                no: no_at,
            };
            let last = push(graph, node)?;
            operand(graph, test, scratch, last)
        }
        Statement::Loop(body) => {
            let Ok(head) = u32::try_from(graph.len()) else {
                return Err(AllocError);
            };
            graph.push(RtlNode::Nop { next: head })?;
            let at = sequence(alloc, graph, body.as_slice(), scratch, end, head, exits)?;
            patch(graph, head, at);
            Ok(head)
        }
        Statement::Block(body) => {
            enter(exits, next)?;
            let at = sequence(alloc, graph, body.as_slice(), scratch, end, next, exits)?;
            exits.pop();
            Ok(at)
        }
        Statement::Exit(number) => Ok(exit(exits, *number, end)),
        Statement::Return(value) => returned(graph, value, scratch),
    }
}
