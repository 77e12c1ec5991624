// What was told first of each name.
ghost use Rattle.std.specs.Prelude.{◌≡◌, OnOk};
ghost use Rattle.mean_start.specs.Firsts.{found, Adds, told};

use indexmap::IndexMap;
use std::alloc::AllocError;

/// What was told first of each name. A look-up takes constant time, as far as hashes are spread.
pub type Firsts<'n, V> = IndexMap<&'n [u8], V>;

/// What was told of a name, if anything was.
pub fn look_up<V: Copy>(firsts: &Firsts<'_, V>, name: &[u8]) -> Option<V>
    ensures { result ≡ found firsts.now name.now }
{
    firsts.get(name).copied()
}

/// Notes what is told of a name, if it is told and nothing was before.
pub fn note<'n, V: Copy>(
    firsts: &mut Firsts<'n, V>,
    tells: bool,
    name: &'n [u8],
    value: V,
) -> Result<(), AllocError>
    ensures { OnOk result (Adds firsts.old firsts.new (told tells name.now value)) }
{
    if tells && look_up(firsts, name).is_none() {
        firsts.insert(name, value)?;
    }
    Ok(())
}
