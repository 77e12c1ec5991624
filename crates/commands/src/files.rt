// Files that are got and put.
ghost use Rattle.std.specs.Prelude.{◌≡◌, [], ◌∷◌, ◌++◌, OnOk, IfErr};
ghost use Rattle.cc_base.specs.Seen.{SourceSeen, SinkSeen};
ghost use Rattle.command_words.specs.Orders.{texts};
ghost use Rattle.commands.specs.Doing.{outside, Each};
ghost use Rattle.commands.specs.Steps.{Fetched, Put, Fetches};
ghost use Rattle.commands.specs.declared.answer.Answer.{Answer};

use crate::answer::Answer;
use cc_base::{Bytes, Files, GetFault, Name, PutFault, Sequence};
use std::alloc::Global;

// The bytes of files, in their order.
pub(crate) type Contents = Sequence<Bytes>;

// Gets a file. Its name is copied first: after the call there may be no memory for it.
pub(crate) fn fetch<F: Files>(alloc: Global, files: &mut F, name: &str) -> Result<Bytes, Answer>
    ensures { Fetched (F.seen files.old) name.now result (F.seen files.new) }
{
    let Ok(which) = Name::from_slice(alloc, name.as_bytes()) else {
        return Err(Answer::Memory);
    };
    match files.get(alloc, name) {
        Ok(bytes) => Ok(Bytes::from_vec(bytes)),
        Err(GetFault::Missing) => Err(Answer::Missing(which)),
        Err(GetFault::Long) => Err(Answer::LimitFile(which)),
        Err(GetFault::Failed) => Err(Answer::ReadFault),
        Err(GetFault::Memory) => Err(Answer::Memory),
    }
}

// Puts a file.
pub(crate) fn store<F: Files>(
    alloc: Global,
    files: &mut F,
    name: &str,
    bytes: &[u8],
) -> Result<(), Answer>
    ensures { Put (F.seen files.old) name.now bytes.now result (F.seen files.new) }
{
    match files.put(alloc, name, bytes) {
        Ok(()) => Ok(()),
        Err(PutFault::Failed) => Err(Answer::WriteFault),
        Err(PutFault::Memory) => Err(Answer::Memory),
    }
}

// Keeps the bytes of one more file.
pub(crate) fn keep(contents: &mut Contents, bytes: Bytes) -> Result<(), Answer>
    ensures kept { OnOk result (contents.new ≡ contents.old ++ bytes ∷ []) }
    ensures memory { IfErr result (λ told. told ≡ Answer.Memory) }
{
    match contents.push(bytes) {
        Ok(()) => Ok(()),
        Err(_) => Err(Answer::Memory),
    }
}

// Gets all these files, in their order. After the first that is not got nothing more is done.
pub(crate) fn fetch_all<F: Files>(
    alloc: Global,
    files: &mut F,
    names: &[String],
) -> Result<Contents, Answer>
    ensures { (input : SourceSeen) (output : SinkSeen) → Each Fetches (texts names.now) (outside (F.seen files.old) input output) result (outside (F.seen files.new) input output) }
{
    let mut contents = Contents::new(alloc);
    for name in names {
        let bytes = fetch(alloc, files, name.as_str())?;
        keep(&mut contents, bytes)?;
    }
    Ok(contents)
}
