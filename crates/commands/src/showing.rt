// The canonical text of a unit.
ghost use Rattle.std.specs.Prelude.{◌≡◌};
ghost use Rattle.cc_base.specs.Seen.{SourceSeen};
ghost use Rattle.commands.specs.Doing.{outside};
ghost use Rattle.commands.specs.Does.{show_does};
ghost use Rattle.commands.specs.Steps.{GivenOut};

use crate::answer::Answer;
use crate::compiling::parse_text;
use crate::files::fetch;
use crate::giving::give_all;
use cc_base::{Files, GiveFault, Sink};
use std::alloc::Global;
use text_print::print;

// Gives a text to the output.
fn give_out<O: Sink>(text: &[u8], output: &mut O) -> Result<(), Answer>
    ensures { GivenOut (O.seen output.old) text.now result (O.seen output.new) }
{
    match give_all(text, output) {
        Ok(()) => Ok(()),
        Err(GiveFault::Failed) => Err(Answer::WriteFault),
        Err(GiveFault::Memory) => Err(Answer::Memory),
    }
}

/// Gets a unit, parses it, and gives its canonical text to the output.
pub fn show<F: Files, O: Sink>(alloc: Global, unit: &str, files: &mut F, output: &mut O) -> Answer
    ensures { (input : SourceSeen) → show_does unit.now (outside (F.seen files.old) input (O.seen output.old)) result (outside (F.seen files.new) input (O.seen output.new)) }
{
    let text = match fetch(alloc, files, unit) {
        Ok(text) => text,
        Err(told) => return told,
    };
    let tree = match parse_text(alloc, unit, text.as_slice()) {
        Ok(tree) => tree,
        Err(told) => return told,
    };
    let Ok(shown) = print(alloc, &tree) else {
        return Answer::Memory;
    };
    match give_out(shown.as_slice(), output) {
        Ok(()) => Answer::Shown,
        Err(told) => told,
    }
}
