// Which symbols a unit has.
ghost use Rattle.std.specs.Prelude.{◌≡◌, OnOk, IfOk};
ghost use Rattle.typing_symbols.specs.Names.{with_names};
ghost use Rattle.typing_symbols.specs.Held.{seen_in};
ghost use Rattle.typing_symbols.specs.Symbols.{is_local, is_global, names_that, symbols_in, symbols_of};

use crate::declarations::sights;
use crate::known::Known;
use crate::names::Names;
use crate::sight::Sight;
use crate::table::Symbols;
use std::alloc::{AllocError, Global};
use text_grammar::External;

// Adds the static definitions.
fn add_locals<'t>(
    names: &mut Names<'t>,
    known: &Known<'t>,
    sights: &[Sight<'t>],
) -> Result<(), AllocError>
    ensures { OnOk result (names.new ≡ with_names names.old (names_that (is_local known.now) (seen_in sights.now))) }
{
    'sights: for sight in sights {
        if known.is_local(sight.name) {
            names.add(sight.name)?;
        }
    }
    Ok(())
}

// Adds the other definitions, and the names that are used and not defined.
fn add_globals<'t>(
    names: &mut Names<'t>,
    known: &Known<'t>,
    sights: &[Sight<'t>],
) -> Result<(), AllocError>
    ensures { OnOk result (names.new ≡ with_names names.old (names_that (is_global known.now) (seen_in sights.now))) }
{
    'sights: for sight in sights {
        if known.is_global(sight.name) {
            names.add(sight.name)?;
        }
    }
    Ok(())
}

// The symbols of which the text says this.
fn symbols_in<'t>(
    alloc: Global,
    known: Known<'t>,
    sights: &[Sight<'t>],
) -> Result<Symbols<'t>, AllocError>
    ensures { IfOk result (λ s. s ≡ symbols_in known.entry (seen_in sights.now)) }
{
    let mut names = Names::new(alloc);
    add_locals(&mut names, &known, sights)?;
    let locals = names.len();
    add_globals(&mut names, &known, sights)?;
    if names.len() > u32::MAX as usize {
        return Err(AllocError);
    }
    Ok(Symbols::new(names, known.defined, locals))
}

/// The symbols of a unit, read off its tree, whether or not the unit breaks a rule. The only error is want of memory, which
/// 2^32 symbols come to as well.
pub fn symbols<'t>(alloc: Global, tree: &'t [External]) -> Result<Symbols<'t>, AllocError>
    ensures { IfOk result (λ s. s ≡ symbols_of tree.now) }
{
    let sights = sights(alloc, tree)?;
    let known = Known::new(alloc, sights.as_slice())?;
    symbols_in(alloc, known, sights.as_slice())
}
