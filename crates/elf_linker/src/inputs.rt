// The objects that are to be linked.
ghost use Rattle.std.specs.Prelude.{◌≡◌, ◌<◌, [], ◌∷◌, ◌++◌, length, OnOk, OnErr};
ghost use Rattle.elf_linker.specs.Inputs.{AreInputs};

use elf_file::ObjectView;
use std::alloc::{AllocError, Global};
use std::marker::Model;

/// The objects that are to be linked, in their order.
#[derive(Drop)]
pub struct Inputs<'a> {
    views: Vec<ObjectView<'a>>,
}

impl<'a> Model for Inputs<'a> {
    ghost use Rattle.std.specs.Prelude.{List};
    ghost use Rattle.elf_file.specs.Object.{Object};
    ghost use Rattle.elf_linker.specs.Inputs.{AreInputs};

    ghost Value = { List Object };

    ghost view = { λ v. v.views.items };

    ghost invariant = { λ v. AreInputs v.views.items };
}

impl<'a> Inputs<'a> {
    /// No objects. It takes no memory.
    pub fn new(alloc: Global) -> Inputs<'a>
        ensures { result ≡ [] }
    {
        Inputs {
            views: Vec::new(alloc),
        }
    }

    /// Appends an object behind fewer than 4,096 others. Where there is no memory for it nothing changes.
    pub fn add(&mut self, object: ObjectView<'a>) -> Result<(), AllocError>
        requires { length self.old < 4096 }
        ensures ok { OnOk result (self.new ≡ self.old ++ object.entry ∷ []) }
        ensures err { OnErr result (self.new ≡ self.old) }
    {
        object.has_text_alone();
        self.views.push(object)?;
        Ok(())
    }

    /// The objects.
    pub(crate) fn as_slice(&self) -> &[ObjectView<'a>]
        ensures objects { result.now ≡ self.now }
        ensures are { AreInputs result.now }
    {
        self.views.as_slice()
    }
}
