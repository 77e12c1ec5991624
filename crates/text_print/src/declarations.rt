// The tokens of declarations.
ghost use Rattle.std.specs.Prelude.{◌≡◌, ◌++◌, OnOk};
ghost use Rattle.std.specs.List.{flat_map};
ghost use Rattle.text_grammar.specs.declared.kind.Kind.TheVariants as k;
ghost use Rattle.text_print.specs.Canonical.{separated, length_tokens, open_tokens, declarator_tokens, object_tokens, member_tokens, maybe_name_tokens, parameter_tokens, parameters_tokens, local_value_tokens, local_tokens, locals_tokens};

use crate::expressions::put_expr;
use crate::initialisers::put_initialised;
use crate::pieces::Pieces;
use crate::types::{put_base, put_keyword_if, put_stars};
use std::alloc::AllocError;
use text_grammar::{
    Declarator, Kind, LocalItem, LocalValue, Locals, Members, NameAt, Number, ObjectItem, Parameter,
};

fn put_lengths<'a>(out: &mut Pieces<'a>, lengths: &'a [Number]) -> Result<(), AllocError>
    ensures { OnOk result (out.new ≡ out.old ++ flat_map length_tokens lengths.now) }
{
    'lengths: for length in lengths {
        out.fixed(Kind::LBracket)?;
        out.number(length.value, length.is_unsigned)?;
        out.fixed(Kind::RBracket)?;
    }
    Ok(())
}

// `[ ]`, where the first length is open.
fn put_open(out: &mut Pieces<'_>, is_open: bool) -> Result<(), AllocError>
    ensures { OnOk result (out.new ≡ out.old ++ open_tokens is_open) }
{
    if is_open {
        out.fixed(Kind::LBracket)?;
        out.fixed(Kind::RBracket)
    } else {
        Ok(())
    }
}

fn put_declarator<'a>(out: &mut Pieces<'a>, declarator: &'a Declarator) -> Result<(), AllocError>
    ensures { OnOk result (out.new ≡ out.old ++ declarator_tokens declarator.now) }
{
    put_stars(out, declarator.stars)?;
    out.name(declarator.name.bytes.as_slice())?;
    put_open(out, declarator.is_open)?;
    put_lengths(out, declarator.lengths.as_slice())
}

fn put_object<'a>(out: &mut Pieces<'a>, item: &'a ObjectItem) -> Result<(), AllocError>
    ensures { OnOk result (out.new ≡ out.old ++ object_tokens item.now) }
{
    put_declarator(out, &item.declarator)?;
    put_initialised(out, &item.initialised)
}

pub fn put_objects<'a>(out: &mut Pieces<'a>, items: &'a [ObjectItem]) -> Result<(), AllocError>
    ensures { OnOk result (out.new ≡ out.old ++ separated k.Comma object_tokens items.now) }
{
    match items {
        [] => Ok(()),
        [first, rest @ ..] => {
            put_object(out, first)?;
            'rest: for item in rest {
                out.fixed(Kind::Comma)?;
                put_object(out, item)?;
            }
            Ok(())
        }
    }
}

fn put_fields<'a>(out: &mut Pieces<'a>, fields: &'a [Declarator]) -> Result<(), AllocError>
    ensures { OnOk result (out.new ≡ out.old ++ separated k.Comma declarator_tokens fields.now) }
{
    match fields {
        [] => Ok(()),
        [first, rest @ ..] => {
            put_declarator(out, first)?;
            'rest: for field in rest {
                out.fixed(Kind::Comma)?;
                put_declarator(out, field)?;
            }
            Ok(())
        }
    }
}

fn put_member<'a>(out: &mut Pieces<'a>, member: &'a Members) -> Result<(), AllocError>
    ensures { OnOk result (out.new ≡ out.old ++ member_tokens member.now) }
{
    put_base(out, &member.base)?;
    put_fields(out, member.fields.as_slice())?;
    out.fixed(Kind::Semi)
}

pub fn put_members<'a>(out: &mut Pieces<'a>, members: &'a [Members]) -> Result<(), AllocError>
    ensures { OnOk result (out.new ≡ out.old ++ flat_map member_tokens members.now) }
{
    'members: for member in members {
        put_member(out, member)?;
    }
    Ok(())
}

fn put_maybe_name<'a>(out: &mut Pieces<'a>, name: &'a Option<NameAt>) -> Result<(), AllocError>
    ensures { OnOk result (out.new ≡ out.old ++ maybe_name_tokens name.now) }
{
    match name {
        None => Ok(()),
        Some(name) => out.name(name.bytes.as_slice()),
    }
}

fn put_parameter<'a>(out: &mut Pieces<'a>, parameter: &'a Parameter) -> Result<(), AllocError>
    ensures { OnOk result (out.new ≡ out.old ++ parameter_tokens parameter.now) }
{
    put_base(out, &parameter.base)?;
    put_stars(out, parameter.stars)?;
    put_maybe_name(out, &parameter.name)
}

pub fn put_parameters<'a>(
    out: &mut Pieces<'a>,
    parameters: &'a [Parameter],
) -> Result<(), AllocError>
    ensures { OnOk result (out.new ≡ out.old ++ parameters_tokens parameters.now) }
{
    match parameters {
        [] => out.fixed(Kind::KwVoid),
        [first, rest @ ..] => {
            put_parameter(out, first)?;
            'rest: for parameter in rest {
                out.fixed(Kind::Comma)?;
                put_parameter(out, parameter)?;
            }
            Ok(())
        }
    }
}

fn put_local_value<'a>(
    out: &mut Pieces<'a>,
    value: &'a Option<LocalValue>,
) -> Result<(), AllocError>
    ensures { OnOk result (out.new ≡ out.old ++ local_value_tokens value.now) }
{
    match value {
        None => Ok(()),
        Some(value) => {
            out.fixed(Kind::Assign)?;
            put_expr(out, &value.value)
        }
    }
}

fn put_local<'a>(out: &mut Pieces<'a>, item: &'a LocalItem) -> Result<(), AllocError>
    ensures { OnOk result (out.new ≡ out.old ++ local_tokens item.now) }
{
    put_declarator(out, &item.declarator)?;
    put_local_value(out, &item.value)
}

fn put_local_items<'a>(out: &mut Pieces<'a>, items: &'a [LocalItem]) -> Result<(), AllocError>
    ensures { OnOk result (out.new ≡ out.old ++ separated k.Comma local_tokens items.now) }
{
    match items {
        [] => Ok(()),
        [first, rest @ ..] => {
            put_local(out, first)?;
            'rest: for item in rest {
                out.fixed(Kind::Comma)?;
                put_local(out, item)?;
            }
            Ok(())
        }
    }
}

fn put_local_list<'a>(out: &mut Pieces<'a>, locals: &'a Locals) -> Result<(), AllocError>
    ensures { OnOk result (out.new ≡ out.old ++ locals_tokens locals.now) }
{
    put_keyword_if(out, locals.is_register, Kind::KwRegister)?;
    put_base(out, &locals.base)?;
    put_local_items(out, locals.items.as_slice())?;
    out.fixed(Kind::Semi)
}

pub fn put_locals<'a>(out: &mut Pieces<'a>, locals: &'a [Locals]) -> Result<(), AllocError>
    ensures { OnOk result (out.new ≡ out.old ++ flat_map locals_tokens locals.now) }
{
    'locals: for list in locals {
        put_local_list(out, list)?;
    }
    Ok(())
}
