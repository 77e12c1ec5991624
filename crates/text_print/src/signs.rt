// How keywords and signs are spelled.
ghost use Rattle.std.specs.Prelude.{◌≡◌};
ghost use Rattle.text_print.specs.Spelling.{spelling, prefix_kind, operator_kind};

use text_grammar::{BinaryOp, Kind, UnaryOp};

/// The bytes of a keyword or a sign. Names and literals have none of their own.
#[tactic(auto, unfolding(crate::specs::Spelling::spelling))]
pub fn spelling(kind: Kind) -> &'static [u8]
    ensures { result.now ≡ spelling kind }
{
    match kind {
        Kind::KwInt => b"int",
        Kind::KwChar => b"char",
        Kind::KwSigned => b"signed",
        Kind::KwUnsigned => b"unsigned",
        Kind::KwVoid => b"void",
        Kind::KwStruct => b"struct",
        Kind::KwStatic => b"static",
        Kind::KwExtern => b"extern",
        Kind::KwConst => b"const",
        Kind::KwRegister => b"register",
        Kind::KwReturn => b"return",
        Kind::KwIf => b"if",
        Kind::KwElse => b"else",
        Kind::KwWhile => b"while",
        Kind::KwDo => b"do",
        Kind::KwFor => b"for",
        Kind::KwBreak => b"break",
        Kind::KwContinue => b"continue",
        Kind::KwSizeof => b"sizeof",
        Kind::OrOr => b"||",
        Kind::AndAnd => b"&&",
        Kind::EqEq => b"==",
        Kind::NotEq => b"!=",
        Kind::LessEq => b"<=",
        Kind::GreaterEq => b">=",
        Kind::ShiftLeft => b"<<",
        Kind::ShiftRight => b">>",
        Kind::Arrow => b"->",
        Kind::Plus => b"+",
        Kind::Minus => b"-",
        Kind::Star => b"*",
        Kind::Slash => b"/",
        Kind::Percent => b"%",
        Kind::And => b"&",
        Kind::Or => b"|",
        Kind::Caret => b"^",
        Kind::Tilde => b"~",
        Kind::Bang => b"!",
        Kind::Less => b"<",
        Kind::Greater => b">",
        Kind::Assign => b"=",
        Kind::LParen => b"(",
        Kind::RParen => b")",
        Kind::LBracket => b"[",
        Kind::RBracket => b"]",
        Kind::LBrace => b"{",
        Kind::RBrace => b"}",
        Kind::Semi => b";",
        Kind::Comma => b",",
        Kind::Dot => b".",
        Kind::Id | Kind::Num | Kind::Char | Kind::Str | Kind::Unused => b"",
    }
}

/// The sign of an operator before its operand.
pub fn prefix_kind(op: UnaryOp) -> Kind
    ensures { result ≡ prefix_kind op }
{
    match op {
        UnaryOp::Neg => Kind::Minus,
        UnaryOp::Flip => Kind::Tilde,
        UnaryOp::Not => Kind::Bang,
        UnaryOp::Deref => Kind::Star,
        UnaryOp::Address => Kind::And,
    }
}

/// The sign of an operator between its operands.
pub fn operator_kind(op: BinaryOp) -> Kind
    ensures { result ≡ operator_kind op }
{
    match op {
        BinaryOp::OrOr => Kind::OrOr,
        BinaryOp::AndAnd => Kind::AndAnd,
        BinaryOp::Or => Kind::Or,
        BinaryOp::Xor => Kind::Caret,
        BinaryOp::And => Kind::And,
        BinaryOp::Eq => Kind::EqEq,
        BinaryOp::Ne => Kind::NotEq,
        BinaryOp::Lt => Kind::Less,
        BinaryOp::Gt => Kind::Greater,
        BinaryOp::Le => Kind::LessEq,
        BinaryOp::Ge => Kind::GreaterEq,
        BinaryOp::Shl => Kind::ShiftLeft,
        BinaryOp::Shr => Kind::ShiftRight,
        BinaryOp::Add => Kind::Plus,
        BinaryOp::Sub => Kind::Minus,
        BinaryOp::Mul => Kind::Star,
        BinaryOp::Div => Kind::Slash,
        BinaryOp::Rem => Kind::Percent,
    }
}
