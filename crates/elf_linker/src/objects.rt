// The objects of an image.
ghost use Rattle.std.specs.Prelude.{◌≡◌, ◌<◌, ◌≤◌, [], ◌∷◌, ◌++◌, length};
ghost use Rattle.elf_linker.specs.Linked.{object_at};
ghost use Rattle.elf_linker.specs.LinkSteps.{AreObjects};

use elf_file::ObjectView;
use std::marker::Model;

/// The objects of an image in their order: those that are given, and the runtime as the last one.
#[derive(Drop)]
pub struct Objects<'a> {
    given: &'a [ObjectView<'a>],
    runtime: &'a ObjectView<'a>,
}

impl<'a> Model for Objects<'a> {
    ghost use Rattle.std.specs.Prelude.{List, [], ◌∷◌, ◌++◌};
    ghost use Rattle.elf_file.specs.Object.{Object};
    ghost use Rattle.elf_linker.specs.LinkSteps.{AreObjects};

    ghost Value = { List Object };

    ghost view = { λ o. o.given.now ++ o.runtime.now ∷ [] };

    ghost invariant = { λ o. AreObjects (o.given.now ++ o.runtime.now ∷ []) };
}

impl<'a> Objects<'a> {
    /// These objects, and the runtime behind them.
    pub(crate) fn new(given: &'a [ObjectView<'a>], runtime: &'a ObjectView<'a>) -> Objects<'a>
        requires { AreObjects (given.now ++ runtime.now ∷ []) }
        ensures { result ≡ given.now ++ runtime.now ∷ [] }
    {
        Objects { given, runtime }
    }

    /// How many objects there are, the runtime included.
    pub(crate) fn len(&self) -> u32
        ensures count { result ≡ length self.now }
        ensures are { AreObjects self.now }
    {
        self.given.len() as u32 + 1
    }

    /// The object with this number.
    pub(crate) fn at(&self, number: u32) -> &'a ObjectView<'a>
        requires { number < length self.now }
        ensures { result.now ≡ object_at self.now number }
    {
        let number = number as usize;
        if number < self.given.len() {
            &self.given[number]
        } else {
            self.runtime
        }
    }
}
