// The tokens of types.
ghost use Rattle.std.specs.Prelude.{◌≡◌, ◌++◌, OnOk};
ghost use Rattle.text_print.specs.Canonical.{base_kind_tokens, keyword_if, base_tokens, star_tokens, type_tokens, parenthesised};

use crate::pieces::Pieces;
use std::alloc::AllocError;
use text_grammar::{Base, BaseKind, Kind, TypeName};

fn put_base_kind<'a>(out: &mut Pieces<'a>, kind: &'a BaseKind) -> Result<(), AllocError>
    ensures { OnOk result (out.new ≡ out.old ++ base_kind_tokens kind.now) }
{
    match kind {
        BaseKind::Int => out.fixed(Kind::KwInt),
        BaseKind::Char => out.fixed(Kind::KwChar),
        BaseKind::UnsignedInt => {
            out.fixed(Kind::KwUnsigned)?;
            out.fixed(Kind::KwInt)
        }
        BaseKind::UnsignedChar => {
            out.fixed(Kind::KwUnsigned)?;
            out.fixed(Kind::KwChar)
        }
        BaseKind::Void => out.fixed(Kind::KwVoid),
        BaseKind::Struct(tag) => {
            out.fixed(Kind::KwStruct)?;
            out.name(tag.as_slice())
        }
    }
}

/// The keyword, where it is so.
pub fn put_keyword_if(out: &mut Pieces<'_>, is_so: bool, kind: Kind) -> Result<(), AllocError>
    ensures { OnOk result (out.new ≡ out.old ++ keyword_if is_so kind) }
{
    if is_so { out.fixed(kind) } else { Ok(()) }
}

pub fn put_base<'a>(out: &mut Pieces<'a>, base: &'a Base) -> Result<(), AllocError>
    ensures { OnOk result (out.new ≡ out.old ++ base_tokens base.now) }
{
    put_keyword_if(out, base.is_const, Kind::KwConst)?;
    put_base_kind(out, &base.kind)
}

pub fn put_stars(out: &mut Pieces<'_>, count: usize) -> Result<(), AllocError>
    ensures { OnOk result (out.new ≡ out.old ++ star_tokens count) }
{
    'stars: for done in 0..count {
        out.fixed(Kind::Star)?;
    }
    Ok(())
}

/// A type in parentheses.
pub fn put_type<'a>(out: &mut Pieces<'a>, to: &'a TypeName) -> Result<(), AllocError>
    ensures { OnOk result (out.new ≡ out.old ++ parenthesised (type_tokens to.now)) }
{
    out.fixed(Kind::LParen)?;
    put_base(out, &to.base)?;
    put_stars(out, to.stars)?;
    out.fixed(Kind::RParen)
}
