// The limits of a text's depth.
ghost use Rattle.std.specs.Prelude.{◌≡◌, ◌≤◌, MatchOption};
ghost use Rattle.text_parser.specs.Depth.{opened, in_row, IsShallow, IsFirstDeep};

use crate::cursor::Cursor;
use text_grammar::Kind;

// The most brackets that may be open.
const OPEN_MAX: u32 = 200;

// The most tokens that may stand in a row.
const ROW_MAX: u32 = 1000;

// The open brackets with one more token.
#[tactic(auto, using(crate::proofs::DepthLaws::no_bracket))]
fn opened(depth: u32, kind: Kind) -> u32
    requires { depth ≤ 200 }
    ensures { result ≡ opened depth kind }
{
    match kind {
        Kind::LParen | Kind::LBracket | Kind::LBrace => depth + 1,
        Kind::RParen | Kind::RBracket | Kind::RBrace => depth.saturating_sub(1),
        _ => depth,
    }
}

// The tokens in a row with one more.
#[tactic(auto, using(crate::proofs::DepthLaws::no_end))]
fn in_row(row: u32, kind: Kind) -> u32
    requires { row ≤ 1000 }
    ensures { result ≡ in_row row kind }
{
    match kind {
        Kind::Semi | Kind::Comma | Kind::LBrace | Kind::RBrace => 0,
        _ => row + 1,
    }
}

/// The place of the first token with which more than 200 brackets are open, or more than 1,000 tokens stand in a row.
pub fn first_deep(mut tokens: Cursor<'_>) -> Option<u32>
    ensures { MatchOption result (IsShallow tokens.entry) (IsFirstDeep tokens.entry) }
{
    let mut depth = 0;
    let mut row = 0;
    'tokens: while let Some(x) = tokens.peek() {
        tokens.skip();
        depth = opened(depth, x.kind());
        row = in_row(row, x.kind());
        if depth > OPEN_MAX || row > ROW_MAX {
            return Some(x.at());
        }
    }
    None
}
