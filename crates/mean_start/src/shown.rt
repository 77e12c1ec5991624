// What all units show of names, as objects and functions.
ghost use Rattle.std.specs.Prelude.{◌≡◌};
ghost use Rattle.std.specs.List.{list_any};
ghost use Rattle.cc_base.specs.Faces.{all_defs};
ghost use Rattle.block_mem.specs.Start.{is_seen, is_shared, is_function, faces_of, object_of};
ghost use Rattle.clight_sem.specs.Functions.{all_parts, shown_function};
ghost use Rattle.mean_start.specs.Linkages.{IsLinkage};

use crate::firsts::look_up;
use crate::linkage::Linkage;
use block_mem::BlockName;
use unit_names::Meaning;

/// Whether some unit defines a function of this name for the others.
pub fn is_function(linkage: &Linkage<'_>, name: &[u8]) -> bool
    requires linkage { IsLinkage linkage.now }
    ensures { result ≡ list_any (is_function name.now) (all_defs (faces_of (all_parts linkage.now.units.now))) }
{
    look_up(&linkage.function_definitions, name).is_some()
}

/// The first object of this name that others see.
pub fn seen_object(linkage: &Linkage<'_>, name: &[u8]) -> Option<BlockName>
    requires linkage { IsLinkage linkage.now }
    ensures { result ≡ object_of (is_seen name.now) (all_parts linkage.now.units.now) }
{
    look_up(&linkage.seen, name)
}

/// The first shared object of this name.
pub fn shared_object(linkage: &Linkage<'_>, name: &[u8]) -> Option<BlockName>
    requires linkage { IsLinkage linkage.now }
    ensures { result ≡ object_of (is_shared name.now) (all_parts linkage.now.units.now) }
{
    look_up(&linkage.shared, name)
}

/// The first function of this name that others see.
pub fn shown_function(linkage: &Linkage<'_>, name: &[u8]) -> Option<Meaning>
    requires linkage { IsLinkage linkage.now }
    ensures { result ≡ shown_function linkage.now.units.now name.now }
{
    look_up(&linkage.shown, name)
}
