// The one call that does all that the program does.
ghost use Rattle.std.specs.Prelude.{◌≡◌};
ghost use Rattle.command_words.specs.Commands.{Request, Fits, FitsNone};
ghost use Rattle.command_words.specs.Orders.{texts};
ghost use Rattle.commands.specs.declared.answer.Answer.{Answer};
ghost use Rattle.commands.specs.Doing.{outside, Says};
ghost use Rattle.commands.specs.Does.{does};
ghost use Rattle.ccelf_build.specs.Promise.{world, Asked, Promise};
ghost use Rattle.ccelf_build.specs.Tells.{Tells};

use crate::finish::finish;
use crate::laws::laws;
use cc_base::{Files, Sink, Source};
use command_words::read;
use commands::{Answer, Status, perform};
use std::alloc::Global;

// All of a command but its end.
fn answer<F: Files, S: Source, O: Sink>(
    alloc: Global,
    words: &[String],
    files: &mut F,
    input: &mut S,
    output: &mut O,
) -> Answer
    ensures fits { (r : Request) → Fits (texts words.now) r →
        Asked (does r) (outside (F.seen files.old) (S.seen input.old) (O.seen output.old))
        result (outside (F.seen files.new) (S.seen input.new) (O.seen output.new)) }
    ensures none { FitsNone (texts words.now) →
        Asked (Says Answer.Words) (outside (F.seen files.old) (S.seen input.old) (O.seen output.old))
        result (outside (F.seen files.new) (S.seen input.new) (O.seen output.new)) }
    ensures words { result ≡ Answer.Words → FitsNone (texts words.now) }
    ensures tells { Tells (outside (F.seen files.old) (S.seen input.old) (O.seen output.old))
        result (outside (F.seen files.new) (S.seen input.new) (O.seen output.new)) }
{
    let Ok(order) = read(alloc, words) else {
        return Answer::Memory;
    };
    let Some(order) = order else {
        return Answer::Words;
    };
    perform(alloc, &order, files, input, output)
}

/// Does what the words ask for, and tells how it went. The words are those after the program's name; the report gets
/// one line at most.
pub fn ccelf<F: Files, S: Source, O: Sink, R: Sink>(
    alloc: Global,
    words: &[String],
    files: &mut F,
    input: &mut S,
    output: &mut O,
    report: &mut R,
) -> Status
    ensures { Promise (texts words.now)
        (world (F.seen files.old) (S.seen input.old) (O.seen output.old) (R.seen report.old)) result
        (world (F.seen files.new) (S.seen input.new) (O.seen output.new) (R.seen report.new)) }
{
    laws();
    let answer = answer(alloc, words, files, input, output);
    finish(alloc, &answer, output, report)
}
