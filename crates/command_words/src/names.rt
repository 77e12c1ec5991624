// The names of files: those of units and of their objects, and that no two are the same.
ghost use Rattle.std.specs.Prelude.{◌≡◌, ◌≢◌, ◌<◌, ◌↔◌, [], ◌∷◌, ◌++◌, List, ℕ, All, length, map, string_bytes, IfOk, IsTrue, codes};
ghost use Rattle.std.specs.Bool.{OnTrue};
ghost use Rattle.command_words.specs.Commands.{AreNames, IsUnit, object_name};
ghost use Rattle.command_words.specs.Orders.{texts, bytes_of};

use indexmap::IndexSet;
use std::alloc::{AllocError, Global};

// Names that were seen.
type NameSet<'a> = IndexSet<&'a [u8]>;

// Whether it ends in .c, and has a byte before that.
pub(crate) fn is_unit(name: &str) -> bool
    ensures { IsTrue result ↔ IsUnit name.now }
{
    let bytes = name.as_bytes();
    if bytes.len() < 3 {
        return false;
    }
    if bytes[bytes.len() - 2] != b'.' {
        return false;
    }
    bytes[bytes.len() - 1] == b'c'
}

// Whether each of them does.
pub(crate) fn are_units(names: &[String]) -> bool
    ensures { IsTrue result ↔ All IsUnit (texts names.now) }
{
    for name in names {
        if !is_unit(name.as_str()) {
            return false;
        }
    }
    true
}

// The name of a unit's object.
fn object_of(alloc: Global, unit: &str) -> Result<String, AllocError>
    requires { IsUnit unit.now }
    ensures { IfOk result (λ s. string_bytes s ≡ object_name unit.now) }
{
    let mut name = String::from_str(alloc, &unit[..unit.len() - 1])?;
    name.push_str("o")?;
    Ok(name)
}

// The names of the units' objects.
pub(crate) fn objects_of(alloc: Global, units: &[String]) -> Result<Vec<String>, AllocError>
    requires { All IsUnit (texts units.now) }
    ensures { IfOk result (λ objects. texts objects.items ≡ map object_name (texts units.now)) }
{
    let mut objects = Vec::with_capacity(alloc, units.len())?;
    for unit in units {
        objects.push(object_of(alloc, unit.as_str())?)?;
    }
    Ok(objects)
}

// Notes a name, and says whether it may stand beside those that were seen.
fn note<'a>(seen: &mut NameSet<'a>, name: &'a [u8]) -> Result<bool, AllocError>
    requires { AreNames (bytes_of seen.old.keys) }
    ensures fits { IfOk result (λ new. IsTrue new ↔ AreNames (bytes_of seen.old.keys ++ name.now ∷ [])) }
    ensures noted { IfOk result (λ new. OnTrue new (bytes_of seen.new.keys ≡ bytes_of seen.old.keys ++ name.now ∷ [])) }
{
    if name.len() == 0 {
        return Ok(false);
    }
    let new = seen.insert(name)?;
    Ok(new)
}

// Notes names, and says whether they may stand beside each other and those that were seen.
fn note_all<'a>(seen: &mut NameSet<'a>, names: &'a [String]) -> Result<bool, AllocError>
    requires { AreNames (bytes_of seen.old.keys) }
    ensures fits { IfOk result (λ new. IsTrue new ↔ AreNames (bytes_of seen.old.keys ++ texts names.now)) }
    ensures noted { IfOk result (λ new. OnTrue new (bytes_of seen.new.keys ≡ bytes_of seen.old.keys ++ texts names.now)) }
{
    for name in names {
        if !note(seen, name.as_bytes())? {
            return Ok(false);
        }
    }
    Ok(true)
}

// Whether no two of these names are the same, and none is empty.
pub(crate) fn are_apart(alloc: Global, names: &[String]) -> Result<bool, AllocError>
    ensures { IfOk result (λ b. IsTrue b ↔ AreNames (texts names.now)) }
{
    let mut seen = NameSet::new(alloc);
    note_all(&mut seen, names)
}

// Whether no two of the names are the same, and none is empty.
pub(crate) fn are_names(
    alloc: Global,
    image: &str,
    names: &[String],
    more: &[String],
) -> Result<bool, AllocError>
    ensures { IfOk result (λ b. IsTrue b ↔ AreNames (image.now ∷ texts names.now ++ texts more.now)) }
{
    let mut seen = NameSet::new(alloc);
    if !note(&mut seen, image.as_bytes())? {
        return Ok(false);
    }
    if !note_all(&mut seen, names)? {
        return Ok(false);
    }
    note_all(&mut seen, more)
}
