// What the rule at a node says.
ghost use Rattle.std.specs.Prelude.{◌≡◌};
ghost use Rattle.typing_faults.specs.Faults.{told};
ghost use Rattle.typing_expressions.specs.Judgements.{fits, gives, broken, node_in, broken_in};

use crate::node::{Form, Node};
use clight_unit::Expression;
use typing_faults::{Faults, Row, TypeKind};
use typing_types::CType;

/// What the rule at a node of the tree says of it.
#[derive(Drop)]
pub enum Judgement<'t> {
    /// It is kept.
    Kept(Node<'t>),
    /// It is broken.
    Broken(Row),
}

impl<'t> Judgement<'t> {
    /// This rule is broken here.
    pub fn broken(kind: TypeKind, at: u32) -> Judgement<'t>
        ensures { result ≡ broken kind at }
    {
        Judgement::Broken(Row { kind, at })
    }

    /// It is of this type, and this is what it is.
    pub fn fits(ctype: CType<'t>, form: Form) -> Judgement<'t>
        ensures { result ≡ fits ctype.entry form }
    {
        Judgement::Kept(Node {
            ctype,
            is_null: false,
            form,
        })
    }

    /// It is of this type, and this is its value.
    pub fn gives(ctype: CType<'t>, expression: Expression) -> Judgement<'t>
        ensures { result ≡ gives ctype.entry expression }
    {
        Judgement::fits(ctype, Form::Value(expression))
    }
}

/// The node, where the rule is tried and kept. A rule that is broken is told.
pub fn settled<'t>(judgement: Option<Judgement<'t>>, faults: &mut Faults) -> Option<Node<'t>>
    ensures node { result ≡ node_in judgement.entry }
    ensures rows { faults.new ≡ told faults.old (broken_in judgement.entry) }
{
    match judgement {
        Some(Judgement::Kept(node)) => Some(node),
        Some(Judgement::Broken(row)) => {
            faults.add(row.kind, row.at);
            None
        }
        None => None,
    }
}
