// What an object of file scope begins with.
ghost use Rattle.std.specs.Prelude.{◌≡◌, OnOk, IfOk};
ghost use Rattle.typing_faults.specs.Faults.{told};
ghost use Rattle.typing_initialisers.specs.Objects.{linkage_rows, initial_rows, initial_data};

use crate::data::Data;
use crate::filling::fill;
use std::alloc::{AllocError, Global};
use text_grammar::{Initialised, Linkage};
use typing_faults::{Faults, TypeKind};
use typing_scopes::Scope;
use typing_types::CType;

// An `extern` object takes no initialiser.
fn tell_linkage(faults: &mut Faults, linkage: Linkage, at: u32)
    ensures { faults.new ≡ told faults.old (linkage_rows linkage at) }
{
    match linkage {
        Linkage::Plain | Linkage::Static => {}
        Linkage::Extern => faults.add(TypeKind::Initialiser, at),
    }
}

/// What an object of file scope begins with, by its type and its initialiser (C11, 6.7.9, of the subset): the bytes and pointers that
/// the initialiser gives, and zeros. The rows that the initialiser breaks are told; where it breaks one, the data is what the other
/// items give. The names in the initialiser are those of the scope, so the object itself is declared there already. The only error is
/// want of memory, which comes too where a place in the object cannot be counted.
#[tactic(auto, using(typing_faults::specs::laws::Faults::told_append))]
pub fn initial_data<'t>(
    alloc: Global,
    scope: &Scope<'t>,
    faults: &mut Faults,
    linkage: Linkage,
    ctype: &CType<'t>,
    initialised: &Option<Initialised>,
) -> Result<Data, AllocError>
    ensures rows { OnOk result (faults.new ≡ told faults.old (initial_rows scope.now linkage ctype.now initialised.now)) }
    ensures data { IfOk result (λ d. d ≡ initial_data scope.now ctype.now initialised.now) }
{
    let mut data = Data::new(alloc);
    if let Some(initialised) = initialised {
        tell_linkage(faults, linkage, initialised.at);
        fill(
            alloc,
            scope,
            faults,
            &mut data,
            ctype,
            0,
            &initialised.value,
        )?;
    }
    Ok(data)
}
