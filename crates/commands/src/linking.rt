// Objects that are read and linked.
ghost use Rattle.std.specs.Prelude.{◌≡◌, ◌<◌, ◌≤◌, ◌^◌, [], ◌∷◌, ◌++◌, List, ℕ, length, ◌≢◌, IfOk, OnOk, IfErr, Some, None, Result, Err};
ghost use Rattle.commands.specs.declared.answer.Answer.{Answer};
ghost use Rattle.elf_file.specs.Object.{symbol_of, object_of};
ghost use Rattle.elf_file.specs.Image.{WellFormedImage, WrittenImage};
ghost use Rattle.elf_linker.specs.Names.{link_fault};
ghost use Rattle.elf_linker.specs.Runtime.{runtime, with_runtime};
ghost use Rattle.elf_linker.specs.declared.fault.LinkFault.{LinkFault};
ghost use Rattle.command_words.specs.Orders.{texts};
ghost use Rattle.commands.specs.Steps.{LinkedFrom, LinkedBy, AreObjectFiles, IsFirstNoObject, symbol_name as symbol_name_of, file_name as file_name_of};
ghost use Rattle.commands.specs.LinkingSteps.{ReadOne, ReadFrom, AreSmall, IsThere};

use crate::answer::Answer;
use cc_base::{Bytes, Name};
use elf_file::{ElfFault, ImageParts, ObjectView, read_object, write_image};
use elf_linker::{Inputs, LinkFault, link, runtime_parts};
use std::alloc::{AllocError, Global};

// The numbers of an object and of a symbol in its table.
#[derive(Clone, Copy)]
struct Place {
    object: u32,
    symbol: u32,
}

// Reads a file as an object.
fn read_one<'a>(alloc: Global, name: &str, file: &'a [u8]) -> Result<ObjectView<'a>, Answer>
    requires { length file.now < 2 ^ 32 }
    ensures { ReadOne name.now file.now result }
{
    match read_object(alloc, file) {
        Ok(view) => Ok(view),
        Err(ElfFault::Form) => match Name::from_slice(alloc, name.as_bytes()) {
            Ok(which) => Err(Answer::ObjectForm(which)),
            Err(_) => Err(Answer::Memory),
        },
        Err(ElfFault::Memory) => Err(Answer::Memory),
    }
}

// Adds an object to those that are to be linked.
fn add<'a>(objects: &mut Inputs<'a>, view: ObjectView<'a>) -> Result<(), Answer>
    requires { length objects.old < 4096 }
    ensures added { OnOk result (objects.new ≡ objects.old ++ view.entry ∷ []) }
    ensures memory { IfErr result (λ told. told ≡ Answer.Memory) }
{
    match objects.add(view) {
        Ok(()) => Ok(()),
        Err(_) => Err(Answer::Memory),
    }
}

// Reads files as objects. The names are those of the files.
fn read_all<'a>(alloc: Global, names: &[String], files: &'a [Bytes]) -> Result<Inputs<'a>, Answer>
    requires same { length names.now ≡ length files.now }
    requires few { length files.now ≤ 4096 }
    requires small { AreSmall files.now }
    ensures { ReadFrom (texts names.now) files.now result }
{
    let mut objects = Inputs::new(alloc);
    for index in 0..files.len() {
        let view = read_one(alloc, names[index].as_str(), files[index].as_slice())?;
        add(&mut objects, view)?;
    }
    Ok(objects)
}

// A copy of a name.
pub(crate) fn copy(alloc: Global, name: &[u8]) -> Result<Name, Answer>
    ensures name { IfOk result (λ copied. copied ≡ name.now) }
    ensures memory { IfErr result (λ told. told ≡ Answer.Memory) }
{
    match Name::from_slice(alloc, name) {
        Ok(copied) => Ok(copied),
        Err(_) => Err(Answer::Memory),
    }
}

// The name of a symbol of the runtime.
fn runtime_name(alloc: Global, symbol: u32) -> Result<Name, Answer>
    requires { symbol < 5 }
    ensures name { IfOk result (λ name. name ≡ (symbol_of (object_of runtime) symbol).name) }
    ensures memory { IfErr result (λ told. told ≡ Answer.Memory) }
{
    let Ok(parts) = runtime_parts(alloc) else {
        return Err(Answer::Memory);
    };
    if symbol == 0 {
        return Ok(Name::new(alloc));
    }
    copy(alloc, parts.symbols.at(symbol as usize - 1).name.as_slice())
}

// The name of a symbol, by the numbers of its object and of itself. The objects are those of the files, and the runtime
// has the number after the last.
fn name_of(
    alloc: Global,
    files: &[Bytes],
    objects: &Inputs<'_>,
    number: u32,
    symbol: u32,
) -> Result<Name, Answer>
    requires files { AreObjectFiles files.now objects.now }
    requires small { AreSmall files.now }
    requires there { IsThere (with_runtime objects.now) number symbol }
    ensures name { IfOk result (λ name. name ≡ symbol_name_of (with_runtime objects.now) number symbol) }
    ensures memory { IfErr result (λ told. told ≡ Answer.Memory) }
{
    let _ = objects;
    let number = number as usize;
    if number >= files.len() {
        return runtime_name(alloc, symbol);
    }
    match read_object(alloc, files[number].as_slice()) {
        Ok(view) => copy(alloc, view.symbol_name(symbol)),
        Err(_) => Err(Answer::Memory),
    }
}

// The name of the file of an object or a unit, by its number.
pub(crate) fn file_of(alloc: Global, names: &[String], number: u32) -> Result<Name, Answer>
    ensures name { IfOk result (λ name. name ≡ file_name_of (texts names.now) number) }
    ensures memory { IfErr result (λ told. told ≡ Answer.Memory) }
{
    let number = number as usize;
    if number < names.len() {
        copy(alloc, names[number].as_bytes())
    } else {
        copy(alloc, b"runtime")
    }
}

// The name of a symbol, and that of its object's file.
fn names_of(
    alloc: Global,
    names: &[String],
    files: &[Bytes],
    objects: &Inputs<'_>,
    place: Place,
) -> Result<(Name, Name), Answer>
    requires files { AreObjectFiles files.now objects.now }
    requires small { AreSmall files.now }
    requires there { IsThere (with_runtime objects.now) place.object place.symbol }
    ensures name { IfOk result (λ both. (both.0 ≡ symbol_name_of (with_runtime objects.now) place.object place.symbol) × (both.1 ≡ file_name_of (texts names.now) place.object)) }
    ensures memory { IfErr result (λ told. told ≡ Answer.Memory) }
{
    let name = name_of(alloc, files, objects, place.object, place.symbol)?;
    let file = file_of(alloc, names, place.object)?;
    Ok((name, file))
}

// What is told of a fault of linking.
fn told(
    alloc: Global,
    names: &[String],
    files: &[Bytes],
    objects: &Inputs<'_>,
    fault: LinkFault,
) -> Result<Answer, Answer>
    requires files { AreObjectFiles files.now objects.now }
    requires small { AreSmall files.now }
    requires fault { fault ≢ LinkFault.Memory → link_fault (with_runtime objects.now) ≡ Some fault }
    ensures told { IfOk result (λ told. LinkedBy (texts names.now) objects.now (Err told)) }
    ensures memory { IfErr result (λ told. told ≡ Answer.Memory) }
{
    match fault {
        LinkFault::Doubled { object, symbol } => {
            let (name, file) = names_of(alloc, names, files, objects, Place { object, symbol })?;
            Ok(Answer::Doubled { name, file })
        }
        LinkFault::Unresolved { object, symbol } => {
            let (name, file) = names_of(alloc, names, files, objects, Place { object, symbol })?;
            Ok(Answer::Unresolved { name, file })
        }
        LinkFault::Sized {
            object,
            symbol,
            stated,
            defined,
        } => {
            let (name, file) = names_of(alloc, names, files, objects, Place { object, symbol })?;
            Ok(Answer::Sized {
                name,
                file,
                stated,
                defined,
            })
        }
        LinkFault::Range { end } => Ok(Answer::Range(end)),
        LinkFault::Memory => Ok(Answer::Memory),
    }
}

// A law of words. It does nothing.
fn is_word(word: u32)
    ensures { word < 2 ^ 32 }
{
    let _ = word;
}

// The file of an image.
fn image_file(alloc: Global, image: &ImageParts) -> Result<Bytes, Answer>
    requires { WellFormedImage image.now }
    ensures written { IfOk result (λ file. WrittenImage image.now file) }
    ensures memory { IfErr result (λ told. told ≡ Answer.Memory) }
    ensures entry { image.now.entry < 2 ^ 32 }
{
    is_word(image.entry);
    match write_image(alloc, image) {
        Ok(file) => Ok(Bytes::from_vec(file)),
        Err(_) => Err(Answer::Memory),
    }
}

// Reads these files as objects and links them: the file of the image. The names are those of the files.
pub(crate) fn link_files(alloc: Global, names: &[String], files: &[Bytes]) -> Result<Bytes, Answer>
    requires same { length names.now ≡ length files.now }
    requires few { length files.now ≤ 4096 }
    requires small { AreSmall files.now }
    ensures { LinkedFrom (texts names.now) files.now result }
{
    let objects = read_all(alloc, names, files)?;
    match link(alloc, &objects) {
        Ok(image) => image_file(alloc, &image),
        Err(fault) => Err(told(alloc, names, files, &objects, fault)?),
    }
}
