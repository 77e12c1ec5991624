// The typed unit of a tree.
ghost use Rattle.std.specs.Prelude.{◌≡◌, IfOk};
ghost use Rattle.typing_units.specs.declared.checking.TypeFault.TheVariants.{Memory};
ghost use Rattle.typing_units.specs.Typing.{Checked, unit_behind};

use crate::faces::{callees_of, face_of, symbol_names};
use crate::walk::Walk;
use crate::walking::walk_unit;
use clight_unit::ClightUnit;
use std::alloc::{AllocError, Global};
use text_grammar::{External, Tree};
use typing_bodies::unbroken_functions_are_typed;
use typing_declarations::Whole;
use typing_faults::{Faults, TypeKind};

/// Why a tree has no typed unit.
#[derive(Clone, Copy, Debug, PartialEq, Eq)]
pub enum TypeFault {
    Memory,
    /// A rule is broken at this place, in bytes from the text's start: the least such place, and at it the first kind.
    Rule { kind: TypeKind, at: u32 },
}

impl From<AllocError> for TypeFault {
    ghost from_gives = { λ _ e. e ≡ Memory };

    fn from(_error: AllocError) -> TypeFault {
        TypeFault::Memory
    }
}

// The unit behind its last declaration, where its functions break no rule.
fn unit_behind(
    alloc: Global,
    whole: &Whole<'_>,
    tree: &[External],
    walk: Walk<'_>,
) -> Result<Option<ClightUnit>, AllocError>
    ensures { IfOk result (λ unit. unit ≡ unit_behind whole.now tree.now walk.entry) }
{
    let Walk {
        scope,
        nodes,
        globals,
        functions,
        ..
    } = walk;
    let Some(functions) = functions.list() else {
        return Ok(None);
    };
    Ok(Some(ClightUnit {
        face: face_of(alloc, &whole.symbols, &scope, functions.as_slice())?,
        symbol_names: symbol_names(alloc, &whole.symbols)?,
        callees: callees_of(alloc, &whole.symbols, tree)?,
        globals,
        functions,
        nodes,
    }))
}

/// The typed unit of a tree, where the tree breaks no rule of the types, and else the fault of least place, at one place of the first
/// kind. It takes linear time but for look-ups of names, which take constant time as far as hashes are spread.
pub fn check(alloc: Global, tree: &Tree) -> Result<ClightUnit, TypeFault>
    ensures { Checked tree.now result }
{
    let externals = tree.as_slice();
    let whole = Whole::new(alloc, externals)?;
    let mut faults = Faults::new();
    let walk = walk_unit(alloc, &whole, &mut faults, externals)?;
    if let Some(row) = faults.least() {
        return Err(TypeFault::Rule {
            kind: row.kind,
            at: row.at,
        });
    }
    unbroken_functions_are_typed();
    match unit_behind(alloc, &whole, externals, walk)? {
        Some(unit) => Ok(unit),
        None => unreachable!(),
    }
}
