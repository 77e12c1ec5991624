// The rows that are broken, as far as they are told.
ghost use Rattle.std.specs.Prelude.{◌≡◌, None, [], ◌∷◌};
ghost use Rattle.typing_faults.specs.Faults.{rank, comes_first, with_row, told};

use crate::fault::{Row, TypeKind};
use std::marker::Model;

/// The row that is told of all that were broken: that of least place, and at one place the first kind. Contracts see it.
#[derive(Drop)]
pub struct Faults {
    least: Option<Row>,
}

impl Model for Faults {
    ghost use Rattle.std.specs.Prelude.{Option};
    ghost use Rattle.typing_faults.specs.declared.fault.Row.{Row as RowValue};

    ghost Value = { Option RowValue };

    ghost view = { λ f. f.least };
}

fn rank(kind: TypeKind) -> u32
    ensures { result ≡ rank kind }
{
    match kind {
        TypeKind::Unknown => 0,
        TypeKind::Twice => 1,
        TypeKind::Kind => 2,
        TypeKind::Count => 3,
        TypeKind::NotPlace => 4,
        TypeKind::Reserved => 5,
        TypeKind::MainShape => 6,
        TypeKind::Initialiser => 7,
        TypeKind::Size => 8,
        TypeKind::Params => 9,
        TypeKind::Nodes => 10,
    }
}

fn comes_first(row: &Row, other: &Row) -> bool
    ensures { result ≡ comes_first row.now other.now }
{
    row.at < other.at || (row.at == other.at && rank(row.kind) < rank(other.kind))
}

impl Faults {
    /// No row is broken.
    pub fn new() -> Faults
        ensures { result ≡ None }
    {
        Faults { least: None }
    }

    /// A row is broken.
    pub fn add(&mut self, kind: TypeKind, at: u32)
        ensures { self.new ≡ told self.old (record { kind = kind; at = at } ∷ []) }
    {
        let row = Row { kind, at };
        let is_told = match &self.least {
            Some(least) => comes_first(&row, least),
            None => true,
        };
        if is_told {
            self.least = Some(row);
        }
    }

    /// The row that is told.
    pub fn least(&self) -> Option<Row>
        ensures { result ≡ self.now }
    {
        self.least
    }
}
