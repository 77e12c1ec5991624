// What units show of names, by their faces.
ghost use Rattle.std.specs.Prelude.{◌≡◌};
ghost use Rattle.std.specs.List.{list_any};
ghost use Rattle.cc_base.specs.Faces.{all_defs, all_uses, shares, is_defined, is_built_in, has_meaning, measure};
ghost use Rattle.block_mem.specs.Start.{faces_of};
ghost use Rattle.clight_sem.specs.Functions.{all_parts};
ghost use Rattle.mean_start.specs.Linkages.{IsLinkage};

use crate::firsts::look_up;
use crate::linkage::Linkage;

/// Whether some unit defines the name for the others.
pub fn is_defined(linkage: &Linkage<'_>, name: &[u8]) -> bool
    requires linkage { IsLinkage linkage.now }
    ensures { result ≡ is_defined (all_defs (faces_of (all_parts linkage.now.units.now))) name.now }
{
    look_up(&linkage.definitions, name).is_some()
}

// Whether some unit shares the name.
fn is_shared(linkage: &Linkage<'_>, name: &[u8]) -> bool
    requires linkage { IsLinkage linkage.now }
    ensures { result ≡ list_any (shares name.now) (all_uses (faces_of (all_parts linkage.now.units.now))) }
{
    look_up(&linkage.shared_sizes, name).is_some()
}

fn is_built_in(name: &[u8]) -> bool
    ensures { result ≡ is_built_in name.now }
{
    name == b"getbyte".as_slice() || name == b"putbyte".as_slice()
}

/// Whether a name means something.
pub fn has_meaning(linkage: &Linkage<'_>, name: &[u8]) -> bool
    requires linkage { IsLinkage linkage.now }
    ensures { result ≡ has_meaning (faces_of (all_parts linkage.now.units.now)) name.now }
{
    is_defined(linkage, name) || is_shared(linkage, name) || is_built_in(name)
}

/// The size of the object that a name means, if it means one.
pub fn measure(linkage: &Linkage<'_>, name: &[u8]) -> Option<u32>
    requires linkage { IsLinkage linkage.now }
    ensures { result ≡ measure (faces_of (all_parts linkage.now.units.now)) name.now }
{
    match look_up(&linkage.definitions, name) {
        Some(size) => size,
        None => look_up(&linkage.shared_sizes, name),
    }
}
