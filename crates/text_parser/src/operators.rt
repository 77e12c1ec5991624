// The operators of expressions.
ghost use Rattle.std.specs.Prelude.{◌≡◌};
ghost use Rattle.text_grammar.specs.Grammar.{prefix_of, operator_of};

use text_grammar::{BinaryOp, Kind, Level, UnaryOp};

/// The operator before an operand.
#[tactic(auto, using(crate::proofs::OperatorLaws::no_prefix))]
pub fn prefix_of(kind: Kind) -> Option<UnaryOp>
    ensures { result ≡ prefix_of kind }
{
    match kind {
        Kind::Minus => Some(UnaryOp::Neg),
        Kind::Tilde => Some(UnaryOp::Flip),
        Kind::Bang => Some(UnaryOp::Not),
        Kind::Star => Some(UnaryOp::Deref),
        Kind::And => Some(UnaryOp::Address),
        _ => None,
    }
}

/// The operator of this level between operands.
pub fn operator_of(level: Level, kind: Kind) -> Option<BinaryOp>
    ensures { result ≡ operator_of level kind }
{
    match (level, kind) {
        (Level::Or, Kind::OrOr) => Some(BinaryOp::OrOr),
        (Level::And, Kind::AndAnd) => Some(BinaryOp::AndAnd),
        (Level::BitOr, Kind::Or) => Some(BinaryOp::Or),
        (Level::BitXor, Kind::Caret) => Some(BinaryOp::Xor),
        (Level::BitAnd, Kind::And) => Some(BinaryOp::And),
        (Level::Equality, Kind::EqEq) => Some(BinaryOp::Eq),
        (Level::Equality, Kind::NotEq) => Some(BinaryOp::Ne),
        (Level::Order, Kind::Less) => Some(BinaryOp::Lt),
        (Level::Order, Kind::Greater) => Some(BinaryOp::Gt),
        (Level::Order, Kind::LessEq) => Some(BinaryOp::Le),
        (Level::Order, Kind::GreaterEq) => Some(BinaryOp::Ge),
        (Level::Shift, Kind::ShiftLeft) => Some(BinaryOp::Shl),
        (Level::Shift, Kind::ShiftRight) => Some(BinaryOp::Shr),
        (Level::Sum, Kind::Plus) => Some(BinaryOp::Add),
        (Level::Sum, Kind::Minus) => Some(BinaryOp::Sub),
        (Level::Product, Kind::Star) => Some(BinaryOp::Mul),
        (Level::Product, Kind::Slash) => Some(BinaryOp::Div),
        (Level::Product, Kind::Percent) => Some(BinaryOp::Rem),
        _ => None,
    }
}
