// The tokens of declarations at file scope.
ghost use Rattle.std.specs.Prelude.{◌≡◌, ◌++◌, OnOk};
ghost use Rattle.std.specs.List.{flat_map};
ghost use Rattle.text_print.specs.Canonical.{braced, linkage_tokens, head_tokens, stmt_tokens, locals_tokens, external_tokens, tokens_of};

use crate::declarations::{put_locals, put_members, put_objects, put_parameters};
use crate::pieces::Pieces;
use crate::statements::put_statement;
use crate::types::{put_base, put_stars};
use std::alloc::AllocError;
use text_grammar::{External, Head, Kind, Linkage, Locals, Stmt};

fn put_linkage(out: &mut Pieces<'_>, linkage: Linkage) -> Result<(), AllocError>
    ensures { OnOk result (out.new ≡ out.old ++ linkage_tokens linkage) }
{
    match linkage {
        Linkage::Plain => Ok(()),
        Linkage::Static => out.fixed(Kind::KwStatic),
        Linkage::Extern => out.fixed(Kind::KwExtern),
    }
}

fn put_head<'a>(out: &mut Pieces<'a>, head: &'a Head) -> Result<(), AllocError>
    ensures { OnOk result (out.new ≡ out.old ++ head_tokens head.now) }
{
    put_linkage(out, head.linkage)?;
    put_base(out, &head.base)?;
    put_stars(out, head.stars)?;
    out.name(head.name.bytes.as_slice())?;
    out.fixed(Kind::LParen)?;
    put_parameters(out, head.parameters.as_slice())?;
    out.fixed(Kind::RParen)
}

fn put_statements<'a>(out: &mut Pieces<'a>, body: &'a [Stmt]) -> Result<(), AllocError>
    ensures { OnOk result (out.new ≡ out.old ++ flat_map stmt_tokens body.now) }
{
    'body: for statement in body {
        put_statement(out, statement)?;
    }
    Ok(())
}

// The braces of a function, with what stands between them.
fn put_function_body<'a>(
    out: &mut Pieces<'a>,
    locals: &'a [Locals],
    body: &'a [Stmt],
) -> Result<(), AllocError>
    ensures { OnOk result (out.new ≡ out.old ++ braced (flat_map locals_tokens locals.now ++ flat_map stmt_tokens body.now)) }
{
    out.fixed(Kind::LBrace)?;
    put_locals(out, locals)?;
    put_statements(out, body)?;
    out.fixed(Kind::RBrace)
}

fn put_external<'a>(out: &mut Pieces<'a>, external: &'a External) -> Result<(), AllocError>
    ensures { OnOk result (out.new ≡ out.old ++ external_tokens external.now) }
{
    match external {
        External::Struct(tag, members) => {
            out.fixed(Kind::KwStruct)?;
            out.name(tag.bytes.as_slice())?;
            out.fixed(Kind::LBrace)?;
            put_members(out, members.as_slice())?;
            out.fixed(Kind::RBrace)?;
            out.fixed(Kind::Semi)
        }
        External::Objects(linkage, base, items) => {
            put_linkage(out, *linkage)?;
            put_base(out, base)?;
            put_objects(out, items.as_slice())?;
            out.fixed(Kind::Semi)
        }
        External::Prototype(head) => {
            put_head(out, head)?;
            out.fixed(Kind::Semi)
        }
        External::Function(head, locals, body) => {
            put_head(out, head)?;
            put_function_body(out, locals.as_slice(), body.as_slice())
        }
    }
}

/// The canonical tokens of a tree.
pub fn put_tree<'a>(out: &mut Pieces<'a>, tree: &'a [External]) -> Result<(), AllocError>
    ensures { OnOk result (out.new ≡ out.old ++ tokens_of tree.now) }
{
    'externals: for external in tree {
        put_external(out, external)?;
    }
    Ok(())
}
