// Units whose types are checked, and what they do when they are linked.
ghost use Rattle.std.specs.Prelude.{◌≡◌, ◌≤◌, [], ◌∷◌, ◌++◌, length, OnOk, OnErr, IfOk, IfErr};
ghost use Rattle.cc_base.specs.Seen.{FilesSeen, SourceSeen, SinkSeen};
ghost use Rattle.command_words.specs.Orders.{texts};
ghost use Rattle.commands.specs.declared.answer.Answer.{Answer};
ghost use Rattle.commands.specs.Doing.{outside, Each};
ghost use Rattle.commands.specs.Meanings.{Checked, Checks, def_name, use_name, end_told, fault_told, IsOfNames, MeansBy};

use crate::answer::Answer;
use crate::compiling::{check_tree, parse_text};
use crate::files::fetch;
use crate::linking::{copy, file_of};
use cc_base::{Files, Name, Sequence, Sink, Source};
use clight_unit::ClightUnit;
use mean_source::{MeanEnd, MeanFault, mean};
use std::alloc::Global;

// The typed units of texts, in their order.
pub(crate) type Units = Sequence<ClightUnit>;

// The typed unit of a text, which has this name.
fn check_text(alloc: Global, name: &str, text: &[u8]) -> Result<ClightUnit, Answer>
    ensures { Checked name.now text.now result }
{
    let tree = parse_text(alloc, name, text)?;
    check_tree(alloc, name, &tree)
}

// Gets a unit and checks its types.
fn check_file<F: Files>(alloc: Global, files: &mut F, name: &str) -> Result<ClightUnit, Answer>
    ensures { (input : SourceSeen) (output : SinkSeen) → Checks name.now (outside (F.seen files.old) input output) result (outside (F.seen files.new) input output) }
{
    let text = fetch(alloc, files, name)?;
    check_text(alloc, name, text.as_slice())
}

// Keeps one more unit.
fn keep_unit(units: &mut Units, unit: ClightUnit) -> Result<(), Answer>
    ensures kept { OnOk result (units.new ≡ units.old ++ unit ∷ []) }
    ensures memory { IfErr result (λ told. told ≡ Answer.Memory) }
{
    match units.push(unit) {
        Ok(()) => Ok(()),
        Err(_) => Err(Answer::Memory),
    }
}

// Gets these units and checks the types of each. After the first refusal nothing more is done.
pub(crate) fn check_all<F: Files>(
    alloc: Global,
    files: &mut F,
    names: &[String],
) -> Result<Units, Answer>
    ensures { (input : SourceSeen) (output : SinkSeen) → Each Checks (texts names.now) (outside (F.seen files.old) input output) result (outside (F.seen files.new) input output) }
{
    let mut units = Units::new(alloc);
    for name in names {
        let unit = check_file(alloc, files, name.as_str())?;
        keep_unit(&mut units, unit)?;
    }
    Ok(units)
}

// The name of a definition, by the numbers of its unit and of itself.
fn def_name<'u>(units: &'u [ClightUnit], unit: u32, index: u32) -> &'u [u8]
    ensures { result.now ≡ def_name units.now unit index }
{
    match units.get(unit as usize) {
        Some(unit) => match unit.face.defs.as_slice().get(index as usize) {
            Some(def) => def.name.as_slice(),
            None => &[],
        },
        None => &[],
    }
}

// The name of a use. The runtime, which has the number after the last unit, uses main.
fn use_name<'u>(units: &'u [ClightUnit], unit: u32, index: u32) -> &'u [u8]
    ensures { result.now ≡ use_name units.now unit index }
{
    match units.get(unit as usize) {
        Some(unit) => match unit.face.uses.as_slice().get(index as usize) {
            Some(wanted) => wanted.name.as_slice(),
            None => &[],
        },
        None => b"main",
    }
}

fn end_told(end: MeanEnd) -> Answer
    ensures { result ≡ end_told end }
{
    match end {
        MeanEnd::Ended(status) => Answer::Ended(status),
        MeanEnd::Spent => Answer::Spent,
        MeanEnd::Wrong { turn } => Answer::Wrong(turn),
        MeanEnd::Deep { turn } => Answer::Deep(turn),
    }
}

// What is told of a fault. The names are those of the units' files.
fn fault_told(
    alloc: Global,
    names: &[String],
    units: &[ClightUnit],
    fault: MeanFault,
) -> Result<Answer, Answer>
    ensures told { IfOk result (λ told. told ≡ fault_told (texts names.now) units.now fault) }
    ensures memory { IfErr result (λ told. told ≡ Answer.Memory) }
    ensures names { OnErr result (IsOfNames fault) }
{
    match fault {
        MeanFault::Doubled { unit, index } => Ok(Answer::Doubled {
            name: copy(alloc, def_name(units, unit, index))?,
            file: file_of(alloc, names, unit)?,
        }),
        MeanFault::Unresolved { unit, index } => Ok(Answer::Unresolved {
            name: copy(alloc, use_name(units, unit, index))?,
            file: file_of(alloc, names, unit)?,
        }),
        MeanFault::Sized {
            unit,
            index,
            stated,
            defined,
        } => Ok(Answer::Sized {
            name: copy(alloc, use_name(units, unit, index))?,
            file: file_of(alloc, names, unit)?,
            stated,
            defined,
        }),
        MeanFault::Read => Ok(Answer::ReadFault),
        MeanFault::Write => Ok(Answer::WriteFault),
        MeanFault::Memory => Ok(Answer::Memory),
    }
}

// Runs linked units as the source means, for so many turns at most. The names are those of their files, which have no
// part in it.
pub(crate) fn mean_units<S: Source, O: Sink>(
    alloc: Global,
    names: &[String],
    units: &[ClightUnit],
    steps: u32,
    input: &mut S,
    output: &mut O,
) -> Answer
    requires few { length units.now ≤ 4096 }
    ensures { (files : FilesSeen) →
        MeansBy steps (texts names.now) units.now (outside files (S.seen input.old) (O.seen output.old))
        result (outside files (S.seen input.new) (O.seen output.new)) }
{
    match mean(alloc, units, steps, input, output) {
        Ok(end) => end_told(end),
        Err(fault) => match fault_told(alloc, names, units, fault) {
            Ok(told) => told,
            Err(told) => told,
        },
    }
}
