// The addresses of names.
ghost use Rattle.std.specs.Prelude.{◌≡◌, ◌+◌, ◌<◌, ◌≤◌, length, true, codes};
ghost use Rattle.elf_file.specs.declared.parts.SymbolPlace.TheVariants.{At};
ghost use Rattle.elf_linker.specs.Names.{is_defined, all_symbols};
ghost use Rattle.elf_linker.specs.Placement.{text_address, section_address};
ghost use Rattle.elf_linker.specs.Linked.{object_at, HasAddress, IsDefinedAt};
ghost use Rattle.elf_linker.specs.LinkSteps.{symbol_at, AreNoted, AreTexts, AreAddresses, FitImage, IsAnswered};

use crate::definitions::{Definitions, look_up};
use crate::objects::Objects;
use crate::placement::TEXT;
use elf_file::{ObjectView, SymbolPlace};
use std::marker::Model;

/// All that decides the addresses of names: the objects, their definitions, the addresses of their texts, and where the
/// sections without bytes stand.
#[derive(Drop)]
pub struct Addresses<'a> {
    objects: &'a Objects<'a>,
    definitions: &'a Definitions<'a>,
    texts: &'a [u32],
    behind: u32,
}

impl<'a> Model for Addresses<'a> {
    ghost use Rattle.std.specs.Prelude.{List};
    ghost use Rattle.elf_file.specs.Object.{Object};
    ghost use Rattle.elf_linker.specs.LinkSteps.{AreAddresses};

    ghost Value = { List Object };

    ghost view = { λ a. a.objects.now };

    ghost invariant = { λ a. AreAddresses a.objects.now a.definitions.now a.texts.now a.behind };
}

impl<'a> Addresses<'a> {
    /// The addresses of the names of these objects.
    pub(crate) fn new(
        objects: &'a Objects<'a>,
        definitions: &'a Definitions<'a>,
        texts: &'a [u32],
        behind: u32,
    ) -> Addresses<'a>
        requires { AreAddresses objects.now definitions.now texts.now behind }
        ensures { result ≡ objects.now }
    {
        Addresses {
            objects,
            definitions,
            texts,
            behind,
        }
    }

    /// How many objects there are.
    pub(crate) fn len(&self) -> u32
        ensures count { result ≡ length self.now }
        ensures fit { FitImage self.now }
    {
        self.objects.len()
    }

    /// The object with this number.
    pub(crate) fn object(&self, number: u32) -> &'a ObjectView<'a>
        requires { number < length self.now }
        ensures { result.now ≡ object_at self.now number }
    {
        self.objects.at(number)
    }

    /// The address of a section of the object with this number.
    pub(crate) fn section(&self, number: u32, section: u32) -> u32
        requires { number < length self.now }
        ensures { result ≡ section_address self.now number section }
    {
        if section == TEXT {
            self.texts[number as usize]
        } else {
            self.behind
        }
    }

    // The address of a symbol that lies in this section of the object with this number.
    fn defined(&self, number: u32, symbol: u32, section: u32) -> u32
        requires object { number < length self.now }
        requires symbol { symbol < length (object_at self.now number).symbols }
        requires place { (symbol_at self.now number symbol).place ≡ At section }
        ensures { result ≡ section_address self.now number section + (symbol_at self.now number symbol).value }
    {
        self.section(number, section) + self.objects.at(number).symbol_value(symbol)
    }

    // The address of the definition of a name.
    fn definition(&self, name: &[u8]) -> u32
        requires { is_defined self.now name.now ≡ true }
        ensures { IsDefinedAt self.now name.now result }
    {
        let Some(site) = look_up(self.definitions, name) else {
            unreachable!()
        };
        let number = site.object;
        match self.objects.at(number).symbol_place(site.symbol) {
            SymbolPlace::At(section) => self.defined(number, site.symbol, section),
            SymbolPlace::Undefined => unreachable!(),
            SymbolPlace::Absolute => unreachable!(),
        }
    }

    /// The address of a symbol of the object with this number.
    pub(crate) fn symbol(&self, number: u32, symbol: u32) -> u32
        requires object { number < length self.now }
        requires symbol { symbol < length (object_at self.now number).symbols }
        requires answered { IsAnswered self.now (symbol_at self.now number symbol) (symbol_at self.now number symbol).place }
        ensures { HasAddress self.now number (symbol_at self.now number symbol) (symbol_at self.now number symbol).place result }
    {
        let view = self.objects.at(number);
        match view.symbol_place(symbol) {
            SymbolPlace::Undefined => self.definition(view.symbol_name(symbol)),
            SymbolPlace::At(section) => self.defined(number, symbol, section),
            SymbolPlace::Absolute => unreachable!(),
        }
    }

    /// The address of the start of the program.
    pub(crate) fn entry(&self) -> u32
        requires { is_defined self.now (codes "_start") ≡ true }
        ensures { IsDefinedAt self.now (codes "_start") result }
    {
        self.definition(b"_start")
    }
}
