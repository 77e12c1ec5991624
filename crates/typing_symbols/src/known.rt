// What the text of a unit says of its names.
ghost use Rattle.std.specs.Prelude.{◌≡◌, IfOk};
ghost use Rattle.typing_symbols.specs.Held.{seen_in};
ghost use Rattle.typing_symbols.specs.Symbols.{plays, names_with};

use crate::names::Names;
use crate::sight::{How, Sight};
use std::alloc::{AllocError, Global};

/// What a name may be at one of its places in the text.
#[derive(Clone, Copy, Debug, PartialEq, Eq)]
pub enum Role {
    Use,
    Definition,
    Static,
}

fn plays(role: Role, how: How) -> bool
    ensures { result ≡ plays role how }
{
    match (role, how) {
        (Role::Use, How::Used) => true,
        (Role::Definition, How::Defined(_)) => true,
        (Role::Static, How::Declared(is_static) | How::Defined(is_static)) => is_static,
        _ => false,
    }
}

// The names of which something in the text is that.
fn names_with<'t>(alloc: Global, role: Role, sights: &[Sight<'t>]) -> Result<Names<'t>, AllocError>
    ensures { IfOk result (λ names. names ≡ names_with role (seen_in sights.now)) }
{
    let mut names = Names::new(alloc);
    'sights: for sight in sights {
        if plays(role, sight.how) {
            names.add(sight.name)?;
        }
    }
    Ok(names)
}

/// What the text of a unit says of its names of file scope.
#[derive(Drop)]
pub struct Known<'t> {
    pub used: Names<'t>,
    pub defined: Names<'t>,
    pub statics: Names<'t>,
}

impl<'t> Known<'t> {
    ghost use Rattle.typing_symbols.specs.Symbols.{known_of, is_local, is_global};

    /// What these say.
    pub fn new(alloc: Global, sights: &[Sight<'t>]) -> Result<Known<'t>, AllocError>
        ensures { IfOk result (λ known. known ≡ known_of (seen_in sights.now)) }
    {
        Ok(Known {
            used: names_with(alloc, Role::Use, sights)?,
            defined: names_with(alloc, Role::Definition, sights)?,
            statics: names_with(alloc, Role::Static, sights)?,
        })
    }

    /// Whether a name is a static definition.
    pub fn is_local(&self, name: &[u8]) -> bool
        ensures { result ≡ is_local self.now name.now }
    {
        self.defined.has(name) && self.statics.has(name)
    }

    /// Whether it is another definition, or used and not defined.
    pub fn is_global(&self, name: &[u8]) -> bool
        ensures { result ≡ is_global self.now name.now }
    {
        (self.defined.has(name) || self.used.has(name)) && !self.is_local(name)
    }
}
