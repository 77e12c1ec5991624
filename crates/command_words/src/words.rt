// Reads the words.
ghost use Rattle.std.specs.Prelude.{◌≡◌, ◌<◌, ◌≤◌, ◌↔◌, [], ◌∷◌, List, ℕ, length, None, Some, Option, option_map, decimal, IfOk, IfSome, IfNone, IsTrue, codes};
ghost use Rattle.command_words.specs.Commands.{AreFew, Request, Compile, Link, Run, Show, Exec, Mean, Fits, FitsNone, FitsCompile, FitsLink, FitsRun, FitsShow, FitsExec, FitsMean};
ghost use Rattle.command_words.specs.Orders.{texts, request_of, NamesObjects};

use crate::names::{are_apart, are_names, are_units, is_unit, objects_of};
use cc_base::word_text;
use std::alloc::{AllocError, Global};

// The most units or objects that a command takes.
const MOST_FILES: usize = 4096;

/// What the words ask for. Each name is that of a file, and steps are the most that are to be run.
#[derive(Drop)]
pub enum Order<'a> {
    /// Compiles a unit to its object.
    Compile {
        unit: &'a str,
        object: &'a str,
    },
    /// Links one to 4,096 objects to an image.
    Link {
        image: &'a str,
        objects: &'a [String],
    },
    /// Runs an image.
    Run {
        steps: u32,
        image: &'a str,
    },
    /// Shows the text of a unit.
    Show {
        unit: &'a str,
    },
    /// Compiles each of one to 4,096 units to the object beside it, links these to an image, and runs it.
    Exec {
        steps: u32,
        image: &'a str,
        units: &'a [String],
        /// Those of the units, in their order.
        objects: Vec<String>,
    },
    /// Says what one to 4,096 linked units do.
    Mean {
        steps: u32,
        units: &'a [String],
    },
}

// The number that the word spells, in decimal without sign or leading zero.
fn number(word: &str) -> Option<u32>
    ensures some { IfSome result (λ n. (word.now ≡ decimal n) × (n ≤ 4294967295)) }
    ensures only { (n : ℕ) → n ≤ 4294967295 → word.now ≡ decimal n → result ≡ Some n }
{
    let Ok(n) = word.parse::<u32>() else {
        return None;
    };
    let text = word_text(n as u64);
    if text.as_slice() == word.as_bytes() {
        Some(n)
    } else {
        None
    }
}

// Whether these are one to 4,096 names.
fn are_few(names: &[String]) -> bool
    ensures { IsTrue result ↔ AreFew (texts names.now) }
{
    !names.is_empty() && names.len() <= MOST_FILES
}

// The order that the words behind compile spell.
fn read_compile<'a>(words: &'a [String]) -> Option<Order<'a>>
    ensures some { IfSome result (λ order. Fits (codes "compile" ∷ texts words.now) (request_of order)) }
    ensures objects { IfSome result NamesObjects }
    ensures only { (unit object : List ℕ) → FitsCompile (codes "compile" ∷ texts words.now) unit object → option_map request_of result ≡ Some (Compile unit object) }
{
    let [unit, object] = words else {
        return None;
    };
    let unit = unit.as_str();
    let object = object.as_str();
    if !is_unit(unit) {
        return None;
    }
    if object.len() == 0 {
        return None;
    }
    if unit == object {
        return None;
    }
    Some(Order::Compile { unit, object })
}

// The order that the words behind link spell.
fn read_link<'a>(alloc: Global, words: &'a [String]) -> Result<Option<Order<'a>>, AllocError>
    ensures some { IfOk result (λ o. IfSome o (λ order. Fits (codes "link" ∷ texts words.now) (request_of order))) }
    ensures objects { IfOk result (λ o. IfSome o NamesObjects) }
    ensures only { IfOk result (λ o. (image : List ℕ) (objects : List (List ℕ)) → FitsLink (codes "link" ∷ texts words.now) image objects → option_map request_of o ≡ Some (Link image objects)) }
{
    let Some((image, objects)) = words.split_first() else {
        return Ok(None);
    };
    let image = image.as_str();
    if !are_few(objects) {
        return Ok(None);
    }
    if !are_names(alloc, image, objects, &[])? {
        return Ok(None);
    }
    Ok(Some(Order::Link { image, objects }))
}

// The order that the words behind run spell.
fn read_run<'a>(words: &'a [String]) -> Option<Order<'a>>
    ensures some { IfSome result (λ order. Fits (codes "run" ∷ texts words.now) (request_of order)) }
    ensures objects { IfSome result NamesObjects }
    ensures only { (steps : ℕ) (image : List ℕ) → FitsRun (codes "run" ∷ texts words.now) steps image → option_map request_of result ≡ Some (Run steps image) }
{
    let [steps, image] = words else {
        return None;
    };
    let steps = number(steps.as_str())?;
    let image = image.as_str();
    if image.len() == 0 {
        return None;
    }
    Some(Order::Run { steps, image })
}

// The order that the words behind show spell.
fn read_show<'a>(words: &'a [String]) -> Option<Order<'a>>
    ensures some { IfSome result (λ order. Fits (codes "show" ∷ texts words.now) (request_of order)) }
    ensures objects { IfSome result NamesObjects }
    ensures only { (unit : List ℕ) → FitsShow (codes "show" ∷ texts words.now) unit → option_map request_of result ≡ Some (Show unit) }
{
    let [unit] = words else {
        return None;
    };
    let unit = unit.as_str();
    if !is_unit(unit) {
        return None;
    }
    Some(Order::Show { unit })
}

// The order that the words behind exec spell.
fn read_exec<'a>(alloc: Global, words: &'a [String]) -> Result<Option<Order<'a>>, AllocError>
    ensures some { IfOk result (λ o. IfSome o (λ order. Fits (codes "exec" ∷ texts words.now) (request_of order))) }
    ensures objects { IfOk result (λ o. IfSome o NamesObjects) }
    ensures only { IfOk result (λ o. (steps : ℕ) (image : List ℕ) (units : List (List ℕ)) → FitsExec (codes "exec" ∷ texts words.now) steps image units → option_map request_of o ≡ Some (Exec steps image units)) }
{
    let [steps, image, units @ ..] = words else {
        return Ok(None);
    };
    let Some(steps) = number(steps.as_str()) else {
        return Ok(None);
    };
    let image = image.as_str();
    if !are_few(units) {
        return Ok(None);
    }
    if !are_units(units) {
        return Ok(None);
    }
    let objects = objects_of(alloc, units)?;
    if !are_names(alloc, image, units, objects.as_slice())? {
        return Ok(None);
    }
    Ok(Some(Order::Exec {
        steps,
        image,
        units,
        objects,
    }))
}

// The order that the words behind mean spell.
fn read_mean<'a>(alloc: Global, words: &'a [String]) -> Result<Option<Order<'a>>, AllocError>
    ensures some { IfOk result (λ o. IfSome o (λ order. Fits (codes "mean" ∷ texts words.now) (request_of order))) }
    ensures objects { IfOk result (λ o. IfSome o NamesObjects) }
    ensures only { IfOk result (λ o. (steps : ℕ) (units : List (List ℕ)) → FitsMean (codes "mean" ∷ texts words.now) steps units → option_map request_of o ≡ Some (Mean steps units)) }
{
    let Some((steps, units)) = words.split_first() else {
        return Ok(None);
    };
    let Some(steps) = number(steps.as_str()) else {
        return Ok(None);
    };
    if !are_few(units) {
        return Ok(None);
    }
    if !are_units(units) {
        return Ok(None);
    }
    if !are_apart(alloc, units)? {
        return Ok(None);
    }
    Ok(Some(Order::Mean { steps, units }))
}

/// What the words ask for, if they fit a command. The words are those behind the program's name. The time is that of
/// reading each name and looking it up in a hash table. The only error is want of memory.
pub fn read<'a>(alloc: Global, words: &'a [String]) -> Result<Option<Order<'a>>, AllocError>
    ensures some { IfOk result (λ o. IfSome o (λ order. Fits (texts words.now) (request_of order))) }
    ensures objects { IfOk result (λ o. IfSome o NamesObjects) }
    ensures only { IfOk result (λ o. (r : Request) → Fits (texts words.now) r → option_map request_of o ≡ Some r) }
    ensures none { IfOk result (λ o. IfNone o (FitsNone (texts words.now))) }
{
    let Some((command, rest)) = words.split_first() else {
        return Ok(None);
    };
    let command = command.as_str();
    if command == "compile" {
        return Ok(read_compile(rest));
    }
    if command == "link" {
        return read_link(alloc, rest);
    }
    if command == "run" {
        return Ok(read_run(rest));
    }
    if command == "show" {
        return Ok(read_show(rest));
    }
    if command == "exec" {
        return read_exec(alloc, rest);
    }
    if command == "mean" {
        return read_mean(alloc, rest);
    }
    Ok(None)
}
