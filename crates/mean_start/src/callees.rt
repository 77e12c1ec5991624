// What symbols mean as callees.
ghost use Rattle.std.specs.Prelude.{◌≡◌, IfOk};
ghost use Rattle.clight_sem.specs.Functions.{all_parts, own_callee, shown_callee, built_in, meant_as_callee, signature_of, getbyte_signature, putbyte_signature, has_type, as_declared, same_type, same_signature, plain_type, callees_of};
ghost use Rattle.mean_start.specs.Linkages.{IsLinkage, IsOwn};

use crate::linkage::Linkage;
use crate::own::{Own, own_function, own_object};
use crate::shown::{seen_object, shared_object, shown_function};
use crate::types::{same_base, same_signature};
use clight_unit::{Callee, ClightUnit, Signature, ValueBase, ValueType};
use sqlite_items::Items;
use std::alloc::{AllocError, Global};
use unit_names::Meaning;

// The unit's own definition of a name.
fn own_callee(own: &Own<'_>, name: &[u8]) -> Option<Meaning>
    requires own { IsOwn own.now }
    ensures { result ≡ own_callee own.now.number own.now.unit.now name.now }
{
    match own_function(own, name) {
        Some(meaning) => Some(meaning),
        None => match own_object(own, name) {
            Some(_) => Some(Meaning::Nothing),
            None => None,
        },
    }
}

// What units show of a name.
fn shown_callee(linkage: &Linkage<'_>, name: &[u8]) -> Option<Meaning>
    requires linkage { IsLinkage linkage.now }
    ensures { result ≡ shown_callee linkage.now.units.now (all_parts linkage.now.units.now) name.now }
{
    if let Some(meaning) = shown_function(linkage, name) {
        return Some(meaning);
    }
    let seen = seen_object(linkage, name);
    if seen.is_some() || shared_object(linkage, name).is_some() {
        return Some(Meaning::Nothing);
    }
    None
}

fn built_in(name: &[u8]) -> Meaning
    ensures { result ≡ built_in name.now }
{
    if name == b"getbyte".as_slice() {
        Meaning::GetByte
    } else if name == b"putbyte".as_slice() {
        Meaning::PutByte
    } else {
        Meaning::Nothing
    }
}

fn meant(linkage: &Linkage<'_>, own: &Own<'_>, name: &[u8]) -> Meaning
    requires linkage { IsLinkage linkage.now }
    requires own { IsOwn own.now }
    ensures { result ≡ meant_as_callee linkage.now.units.now (all_parts linkage.now.units.now) own.now.number own.now.unit.now name.now }
{
    if let Some(meaning) = own_callee(own, name) {
        return meaning;
    }
    match shown_callee(linkage, name) {
        Some(meaning) => meaning,
        None => built_in(name),
    }
}

fn is_plain(value: &ValueType, base: &ValueBase) -> bool
    ensures { result ≡ same_type value.now (plain_type base.now) }
{
    same_base(&value.base, base) && value.stars == 0
}

// Whether a declared function is `int getbyte(void)`.
fn declares_getbyte(declared: &Signature) -> bool
    ensures { result ≡ same_signature declared.now getbyte_signature }
{
    is_plain(&declared.result, &ValueBase::Int) && declared.parameters.len() == 0
}

// Whether a declared function is `void putbyte(int)`.
fn declares_putbyte(declared: &Signature) -> bool
    ensures { result ≡ same_signature declared.now putbyte_signature }
{
    match declared.parameters.as_slice() {
        [parameter] => {
            is_plain(&declared.result, &ValueBase::Void) && is_plain(parameter, &ValueBase::Int)
        }
        _ => false,
    }
}

// Whether what a unit declares of a function is the type of what its name means.
fn has_type(units: &[ClightUnit], declared: &Signature, meaning: Meaning) -> bool
    ensures { result ≡ has_type declared.now (signature_of units.now meaning) }
{
    match meaning {
        Meaning::Function { unit, index } => match units.get(unit as usize) {
            Some(unit) => match unit.functions.get(index as usize) {
                Some(function) => same_signature(declared, &function.signature),
                None => false,
            },
            None => false,
        },
        Meaning::GetByte => declares_getbyte(declared),
        Meaning::PutByte => declares_putbyte(declared),
        Meaning::Nothing => false,
    }
}

fn as_declared(units: &[ClightUnit], declared: &Callee, meaning: Meaning) -> Meaning
    ensures { result ≡ as_declared units.now declared.now meaning }
{
    match declared {
        Callee::Function(signature) if has_type(units, signature, meaning) => meaning,
        _ => Meaning::Nothing,
    }
}

/// What the symbols of a unit mean as callees.
pub fn callees_of(
    alloc: Global,
    linkage: &Linkage<'_>,
    own: &Own<'_>,
) -> Result<Items<Meaning>, AllocError>
    requires linkage { IsLinkage linkage.now }
    requires own { IsOwn own.now }
    ensures { IfOk result (λ callees. callees ≡ callees_of linkage.now.units.now (all_parts linkage.now.units.now) own.now.number own.now.unit.now) }
{
    let symbols = own.unit.symbol_names.as_slice();
    let declared = own.unit.callees.as_slice();
    let mut callees = Items::new(alloc);
    for symbol in 0..symbols.len().min(declared.len()) {
        let meaning = meant(linkage, own, symbols[symbol].name.as_slice());
        callees.push(as_declared(linkage.units, &declared[symbol], meaning))?;
    }
    Ok(callees)
}
