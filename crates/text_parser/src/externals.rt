// Declarations at file scope.
ghost use Rattle.std.specs.Prelude.{◌≡◌, ◌≤◌, [], ◌∷◌, length, IfOk};
ghost use Rattle.text_grammar.specs.Grammar.{all_named};
ghost use Rattle.text_grammar.specs.laws.Programs.{runs, walk, struct_base};
ghost use Rattle.text_grammar.specs.laws.Programs as spec;
ghost use Rattle.text_parser.specs.Descent.{Gives};

use crate::cursor::Cursor;
use crate::declarators::{read_member, read_members};
use crate::lexeme::Lexeme;
use crate::locals::read_local_lists;
use crate::objects::{read_object_tail, read_objects};
use crate::parameters::{all_named, read_parameter_list};
use crate::statements::read_statements;
use crate::stop::Stop;
use crate::types::{read_base, read_stars};
use cc_base::Sequence;
use std::alloc::{AllocError, Global};
use text_grammar::{Base, BaseKind, External, Head, Kind, Linkage, Tree};

// The body of a function behind its brace.
fn read_function(
    alloc: Global,
    tokens: &mut Cursor<'_>,
    head: Head,
    z: &Lexeme<'_>,
) -> Result<External, Stop>
    ensures reads { Gives (walk runs (spec.function_locals head z.now) tokens.old) result tokens.new }
    ensures shorter { length tokens.new ≤ length tokens.old }
{
    let _at = z.at();
    let locals = read_local_lists(alloc, tokens)?;
    let body = read_statements(alloc, tokens)?;
    Ok(External::Function(head, locals, body))
}

// What stands behind the parameters of a function.
fn read_head_end(alloc: Global, tokens: &mut Cursor<'_>, head: Head) -> Result<External, Stop>
    ensures reads { Gives (walk runs (spec.head_at head (all_named head.parameters)) tokens.old) result tokens.new }
    ensures shorter { length tokens.new ≤ length tokens.old }
{
    if all_named(&head.parameters)
        && let Some(z) = tokens.next_if(Kind::LBrace)
    {
        return read_function(alloc, tokens, head, &z);
    }
    let _ = tokens.expect(Kind::Semi)?;
    Ok(External::Prototype(head))
}

// A declaration behind its stars and its name.
fn read_declared_named(
    alloc: Global,
    tokens: &mut Cursor<'_>,
    linkage: Linkage,
    base: Base,
    stars: usize,
    name: &Lexeme<'_>,
) -> Result<External, Stop>
    ensures reads { Gives (walk runs (spec.declared_named linkage base stars name.now) tokens.old) result tokens.new }
    ensures shorter { length tokens.new ≤ length tokens.old }
{
    if let Some(_) = tokens.next_if(Kind::LParen) {
        let parameters = read_parameter_list(alloc, tokens)?;
        let head = Head {
            linkage,
            base,
            stars,
            name: name.name(alloc)?,
            parameters,
        };
        return read_head_end(alloc, tokens, head);
    }
    let first = read_object_tail(alloc, tokens, stars, name)?;
    let objects = read_objects(alloc, tokens, first)?;
    let _ = tokens.expect(Kind::Semi)?;
    Ok(External::Objects(linkage, base, objects))
}

// A declaration behind its base.
#[tactic(auto, using(text_grammar::specs::laws::ProgramWalks::runs_walk))]
fn read_declared(
    alloc: Global,
    tokens: &mut Cursor<'_>,
    linkage: Linkage,
    base: Base,
) -> Result<External, Stop>
    ensures reads { Gives (runs (spec.DeclaredOf linkage base) tokens.old) result tokens.new }
    ensures shorter { length tokens.new ≤ length tokens.old }
{
    let stars = read_stars(tokens)?;
    let name = tokens.expect(Kind::Id)?;
    read_declared_named(alloc, tokens, linkage, base, stars, &name)
}

// The base that a struct's tag is.
fn struct_base(alloc: Global, name: &Lexeme<'_>) -> Result<Base, AllocError>
    ensures { IfOk result (λ base. base ≡ struct_base name.now) }
{
    Ok(Base {
        at: name.at(),
        is_const: false,
        kind: BaseKind::Struct(name.bytes(alloc)?),
    })
}

// A struct's definition, or a declaration, behind `struct` and its tag.
fn read_tagged(alloc: Global, tokens: &mut Cursor<'_>, name: &Lexeme<'_>) -> Result<External, Stop>
    ensures reads { Gives (walk runs (spec.struct_named name.now) tokens.old) result tokens.new }
    ensures shorter { length tokens.new ≤ length tokens.old }
{
    if let Some(_) = tokens.next_if(Kind::LBrace) {
        let first = read_member(alloc, tokens)?;
        let members = read_members(alloc, tokens, first)?;
        let _ = tokens.expect(Kind::Semi)?;
        return Ok(External::Struct(name.name(alloc)?, members));
    }
    let base = struct_base(alloc, name)?;
    read_declared(alloc, tokens, Linkage::Plain, base)
}

// A declaration behind `static` or `extern` where there is one.
fn read_specified(
    alloc: Global,
    tokens: &mut Cursor<'_>,
    linkage: Linkage,
) -> Result<External, Stop>
    ensures reads { Gives (walk runs (spec.specified linkage) tokens.old) result tokens.new }
    ensures shorter { length tokens.new ≤ length tokens.old }
{
    let base = read_base(alloc, tokens)?;
    read_declared(alloc, tokens, linkage, base)
}

#[tactic(auto, using(text_grammar::specs::laws::ProgramWalks::runs_walk))]
fn read_external(alloc: Global, tokens: &mut Cursor<'_>) -> Result<External, Stop>
    ensures reads { Gives (runs spec.ExternalOf tokens.old) result tokens.new }
    ensures shorter { length tokens.new ≤ length tokens.old }
{
    if let Some(_) = tokens.next_if(Kind::KwStruct) {
        let name = tokens.expect(Kind::Id)?;
        return read_tagged(alloc, tokens, &name);
    }
    if let Some(_) = tokens.next_if(Kind::KwStatic) {
        return read_specified(alloc, tokens, Linkage::Static);
    }
    if let Some(_) = tokens.next_if(Kind::KwExtern) {
        return read_specified(alloc, tokens, Linkage::Extern);
    }
    read_specified(alloc, tokens, Linkage::Plain)
}

/// The declarations up to the end of the tokens.
#[tactic(auto, using(text_grammar::specs::laws::ProgramWalks::runs_walk))]
pub fn read_unit(alloc: Global, tokens: &mut Cursor<'_>) -> Result<Tree, Stop>
    ensures reads { Gives (runs (spec.UnitOf []) tokens.old) result tokens.new }
    ensures shorter { length tokens.new ≤ length tokens.old }
{
    let mut found = Sequence::new(alloc);
    'externals: loop {
        if tokens.is_empty() {
            return Ok(found);
        }
        let next = read_external(alloc, tokens)?;
        found.push(next)?;
    }
}
