// Units that are compiled, each alone.
ghost use Rattle.std.specs.Prelude.{◌≡◌, List, ℕ, map};
ghost use Rattle.cc_base.specs.Seen.{SourceSeen, SinkSeen};
ghost use Rattle.command_words.specs.Commands.{object_name};
ghost use Rattle.command_words.specs.Orders.{texts};
ghost use Rattle.commands.specs.declared.answer.Answer.TheVariants.{LimitUnit as SomeLimit};
ghost use Rattle.commands.specs.Doing.{outside, Each};
ghost use Rattle.commands.specs.Steps.{Parsed, HasTypes, Compiled, CompilesTo};

use crate::answer::{Answer, SyntaxKind, TypingKind, UnitLimit};
use crate::files::{Contents, fetch, keep, store};
use cc_base::{Bytes, Files, Name};
use clight_unit::ClightUnit;
use second_code::unit_object;
use std::alloc::Global;
use text_grammar::{SyntaxFault, Tree};
use text_parser::parse;
use typing_units::{TypeFault, TypeKind, check};

// The tree of a text, which has this name. The name is copied first: after a refusal there may be no memory for it.
pub(crate) fn parse_text(alloc: Global, name: &str, text: &[u8]) -> Result<Tree, Answer>
    ensures { Parsed name.now text.now result }
{
    let Ok(file) = Name::from_slice(alloc, name.as_bytes()) else {
        return Err(Answer::Memory);
    };
    let (kind, at) = match parse(alloc, text) {
        Ok(tree) => return Ok(tree),
        Err(SyntaxFault::Long) => return Err(Answer::LimitText(file)),
        Err(SyntaxFault::Deep { at }) => return Err(Answer::LimitDeep { file, at }),
        Err(SyntaxFault::Memory) => return Err(Answer::Memory),
        Err(SyntaxFault::Char { at }) => (SyntaxKind::Char, at),
        Err(SyntaxFault::Literal { at }) => (SyntaxKind::Literal, at),
        Err(SyntaxFault::Token { at }) => (SyntaxKind::Token, at),
    };
    Err(Answer::Syntax { file, kind, at })
}

// The typed unit of a tree in the file of this name. The name is copied first: after a refusal there may be no memory for it.
pub(crate) fn check_tree(alloc: Global, name: &str, tree: &Tree) -> Result<ClightUnit, Answer>
    ensures { HasTypes name.now tree.now result }
{
    let Ok(file) = Name::from_slice(alloc, name.as_bytes()) else {
        return Err(Answer::Memory);
    };
    let (kind, at) = match check(alloc, tree) {
        Ok(unit) => return Ok(unit),
        Err(TypeFault::Memory) => return Err(Answer::Memory),
        Err(TypeFault::Rule { kind, at }) => (kind, at),
    };
    let told = match kind {
        TypeKind::Unknown => TypingKind::Unknown,
        TypeKind::Twice => TypingKind::Twice,
        TypeKind::Kind => TypingKind::Kind,
        TypeKind::Count => TypingKind::Count,
        TypeKind::NotPlace => TypingKind::NotPlace,
        TypeKind::Reserved => TypingKind::Reserved,
        TypeKind::MainShape => TypingKind::MainShape,
        TypeKind::Initialiser => TypingKind::Initialiser,
        TypeKind::Size => return Err(limit_told(file, UnitLimit::Size, at)),
        TypeKind::Params => return Err(limit_told(file, UnitLimit::Params, at)),
        TypeKind::Nodes => return Err(limit_told(file, UnitLimit::Nodes, at)),
    };
    Err(Answer::Typing {
        file,
        kind: told,
        at,
    })
}

fn limit_told(file: Name, limit: UnitLimit, at: u32) -> Answer
    ensures { result ≡ SomeLimit file limit at }
{
    Answer::LimitUnit { file, limit, at }
}

// The object of a text, which has this name. No other text has a part in it.
fn compile(alloc: Global, name: &str, text: &[u8]) -> Result<Bytes, Answer>
    ensures { Compiled name.now text.now result }
{
    let tree = parse_text(alloc, name, text)?;
    check_tree(alloc, name, &tree)?;
    let Ok(object) = unit_object(alloc, &tree) else {
        return Err(Answer::Memory);
    };
    if let Some(object) = object {
        return Ok(Bytes::from_vec(object));
    }
    match Name::from_slice(alloc, name.as_bytes()) {
        Ok(which) => Err(Answer::LimitForm(which)),
        Err(_) => Err(Answer::Memory),
    }
}

// Gets a unit, compiles it, and puts its object under this name.
pub(crate) fn compile_to<F: Files>(
    alloc: Global,
    files: &mut F,
    unit: &str,
    object: &str,
) -> Result<Bytes, Answer>
    ensures { (input : SourceSeen) (output : SinkSeen) → CompilesTo unit.now object.now (outside (F.seen files.old) input output) result (outside (F.seen files.new) input output) }
{
    let text = fetch(alloc, files, unit)?;
    let bytes = compile(alloc, unit, text.as_slice())?;
    store(alloc, files, object, bytes.as_slice())?;
    Ok(bytes)
}

// Gets each of these units, compiles it alone, and puts its object under its name. After the first refusal nothing more
// is done.
pub(crate) fn compile_all<F: Files>(
    alloc: Global,
    files: &mut F,
    units: &[String],
    objects: &[String],
) -> Result<Contents, Answer>
    requires { texts objects.now ≡ map object_name (texts units.now) }
    ensures { (input : SourceSeen) (output : SinkSeen) → Each (λ unit. CompilesTo unit (object_name unit)) (texts units.now) (outside (F.seen files.old) input output) result (outside (F.seen files.new) input output) }
{
    let mut contents = Contents::new(alloc);
    for index in 0..units.len() {
        let bytes = compile_to(alloc, files, units[index].as_str(), objects[index].as_str())?;
        keep(&mut contents, bytes)?;
    }
    Ok(contents)
}
