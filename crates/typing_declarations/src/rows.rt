// Rules that are broken.
ghost use Rattle.std.specs.Prelude.{◌≡◌};
ghost use Rattle.typing_faults.specs.Faults.{told};
ghost use Rattle.typing_declarations.specs.Rows.{row_if};

use typing_faults::{Faults, TypeKind};

/// A rule is broken at this place, where it is.
pub(crate) fn add_if(faults: &mut Faults, holds: bool, kind: TypeKind, at: u32)
    ensures { faults.new ≡ told faults.old (row_if holds kind at) }
{
    if holds {
        faults.add(kind, at);
    }
}
