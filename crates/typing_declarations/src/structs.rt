// Definitions of structs.
ghost use Rattle.std.specs.Prelude.{◌≡◌, ◌||◌, OnOk};
ghost use Rattle.typing_faults.specs.Faults.{told};
ghost use Rattle.typing_declarations.specs.Declarators.{type_of};
ghost use Rattle.typing_declarations.specs.Structs.{no_fields, offset_at, laid_at, offset_in, laid_with, is_unfit_member, is_flawed, field_rows, with_field, fields_rows, with_fields, members_rows, with_members, struct_at, struct_of_fields, struct_rows, struct_behind};

use crate::declarators::{is_unfit, laid_of, type_of};
use crate::rows::add_if;
use std::alloc::{AllocError, Global};
use text_grammar::{Base, Declarator, Members, NameAt};
use typing_faults::{Faults, TypeKind};
use typing_scopes::{Member, Scope, Table};
use typing_types::{CType, Layout};

/// The members of a struct so far.
#[derive(Drop)]
pub(crate) struct Fields<'t> {
    pub members: Table<'t, Member<'t>>,
    /// What stands there so far; none where a limit is passed or a member has no size.
    pub laid: Option<Layout>,
    /// Whether a member breaks a rule.
    pub is_broken: bool,
}

fn no_fields<'t>(alloc: Global) -> Fields<'t>
    ensures { result ≡ no_fields }
{
    Fields {
        members: Table::new(alloc),
        laid: Some(Layout::empty()),
        is_broken: false,
    }
}

fn offset_at(before: &Layout, member: &Layout) -> Option<u32>
    ensures { result ≡ offset_at before.now member.now }
{
    before.offset_of(member)
}

fn laid_at(before: &Layout, member: &Layout) -> Option<Layout>
    ensures { result ≡ laid_at before.now member.now }
{
    before.with(member)
}

fn struct_at(members: &Layout) -> Option<Layout>
    ensures { result ≡ struct_at members.now }
{
    members.ended()
}

// Where a member begins; 0 where it has no place.
fn offset_in(before: &Option<Layout>, member: &Option<Layout>) -> u32
    ensures { result ≡ offset_in before.now member.now }
{
    match (before, member) {
        (Some(before), Some(member)) => offset_at(before, member).unwrap_or(0),
        (None, _) | (_, None) => 0,
    }
}

fn laid_with(before: &Option<Layout>, member: &Option<Layout>) -> Option<Layout>
    ensures { result ≡ laid_with before.now member.now }
{
    match (before, member) {
        (Some(before), Some(member)) => laid_at(before, member),
        (None, _) | (_, None) => None,
    }
}

fn is_unfit_member(ctype: &CType<'_>, declarator: &Declarator) -> bool
    ensures { result ≡ is_unfit_member ctype.now declarator.now }
{
    is_unfit(ctype) || declarator.is_open
}

// Tells the rules that a member of this type breaks, and answers whether it breaks one.
#[tactic(auto, using(typing_faults::specs::laws::Faults::told_append))]
fn tell_field(
    faults: &mut Faults,
    scope: &Scope<'_>,
    base: &Base,
    fields: &Fields<'_>,
    declarator: &Declarator,
    ctype: &CType<'_>,
) -> bool
    ensures flawed { result ≡ is_flawed scope.now fields.now declarator.now ctype.now }
    ensures told { faults.new ≡ told faults.old (field_rows scope.now base.now fields.now declarator.now ctype.now) }
{
    let name = &declarator.name;
    let unfinished = ctype.is_unfinished(scope.layouts());
    let doubled = fields.members.has(name.bytes.as_slice());
    let unfit = is_unfit_member(ctype, declarator);
    add_if(faults, unfinished, TypeKind::Unknown, base.at);
    add_if(faults, doubled, TypeKind::Twice, name.at);
    add_if(faults, unfit, TypeKind::Kind, name.at);
    unfinished || (doubled || unfit)
}

// Whether a member breaks a rule, with one more.
fn is_broken_with(fields: &Fields<'_>, flawed: bool) -> bool
    ensures { result ≡ (fields.now.is_broken || flawed) }
{
    fields.is_broken || flawed
}

fn add_field<'t>(
    faults: &mut Faults,
    scope: &Scope<'t>,
    base: &Base,
    fields: &mut Fields<'t>,
    declarator: &'t Declarator,
) -> Result<(), AllocError>
    ensures fields { OnOk result (fields.new ≡ with_field scope.now fields.old declarator.now (type_of scope.now base.now declarator.now)) }
    ensures told { OnOk result (faults.new ≡ told faults.old (field_rows scope.now base.now fields.old declarator.now (type_of scope.now base.now declarator.now))) }
{
    let ctype = type_of(scope, base, declarator)?;
    let flawed = tell_field(faults, scope, base, fields, declarator, &ctype);
    let laid = laid_of(scope, &ctype);
    let offset = offset_in(&fields.laid, &laid);
    fields.is_broken = is_broken_with(fields, flawed);
    fields.laid = laid_with(&fields.laid, &laid);
    fields
        .members
        .set(declarator.name.bytes.as_slice(), Member { ctype, offset })
}

// The members that one declaration names.
#[tactic(auto, using(typing_faults::specs::laws::Faults::told_append))]
fn add_fields<'t>(
    faults: &mut Faults,
    scope: &Scope<'t>,
    base: &Base,
    fields: &mut Fields<'t>,
    declarators: &'t [Declarator],
) -> Result<(), AllocError>
    ensures fields { OnOk result (fields.new ≡ with_fields scope.now base.now fields.old declarators.now) }
    ensures told { OnOk result (faults.new ≡ told faults.old (fields_rows scope.now base.now fields.old declarators.now)) }
{
    'declarators: for declarator in declarators {
        add_field(faults, scope, base, fields, declarator)?;
    }
    Ok(())
}

#[tactic(auto, using(typing_faults::specs::laws::Faults::told_append))]
fn add_members<'t>(
    faults: &mut Faults,
    scope: &Scope<'t>,
    fields: &mut Fields<'t>,
    members: &'t [Members],
) -> Result<(), AllocError>
    ensures fields { OnOk result (fields.new ≡ with_members scope.now fields.old members.now) }
    ensures told { OnOk result (faults.new ≡ told faults.old (members_rows scope.now fields.old members.now)) }
{
    'members: for list in members {
        add_fields(faults, scope, &list.base, fields, list.fields.as_slice())?;
    }
    Ok(())
}

// The struct of these members; none where a member breaks a rule, and where its size is past the greatest.
fn struct_of(fields: &Fields<'_>) -> Option<Layout>
    ensures { result ≡ struct_of_fields fields.now }
{
    if fields.is_broken {
        return None;
    }
    match &fields.laid {
        Some(laid) => struct_at(laid),
        None => None,
    }
}

/// The definition of a struct.
#[tactic(auto, using(typing_faults::specs::laws::Faults::told_append))]
pub fn add_struct<'t>(
    alloc: Global,
    faults: &mut Faults,
    scope: &mut Scope<'t>,
    tag: &'t NameAt,
    members: &'t [Members],
) -> Result<(), AllocError>
    ensures scope { OnOk result (scope.new ≡ struct_behind scope.old tag.now members.now) }
    ensures told { OnOk result (faults.new ≡ told faults.old (struct_rows scope.old tag.now members.now)) }
{
    let name = tag.bytes.as_slice();
    add_if(faults, scope.is_ended(name), TypeKind::Twice, tag.at);
    let mut fields = no_fields(alloc);
    add_members(faults, scope, &mut fields, members)?;
    let layout = struct_of(&fields);
    let is_large = !fields.is_broken && layout.is_none();
    add_if(faults, is_large, TypeKind::Size, tag.at);
    scope.define_struct(alloc, name, fields.members, layout)
}
