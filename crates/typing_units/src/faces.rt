// What a typed unit shows to others, and what it declares of its symbols.
ghost use Rattle.std.specs.Prelude.{◌≡◌, ◌<◌, [], length, map, replicate, drop, OnOk, IfOk};
ghost use Rattle.typing_units.specs.Objects.{name_of};
ghost use Rattle.typing_units.specs.Faces.{symbol_names, with_need, with_needs, needs_of, names_function, stated_size, def_of, wanted_of, face_with, face_from, face_of, int as int_value, void as void_value, undeclared, with_head, with_external, with_externals, callees_of};

use cc_base::{Def, Face, Sequence, SymbolName, SymbolNames, Wanted};
use clight_unit::{Callee, Function, Signature, ValueBase, ValueType};
use sqlite_items::Items;
use std::alloc::{AllocError, Global};
use text_grammar::{External, Head};
use typing_bodies::signature_of;
use typing_declarations::declared_size;
use typing_scopes::{Entity, Scope};
use typing_symbols::Symbols;

/// The names of a unit's symbols.
pub(crate) fn symbol_names(alloc: Global, symbols: &Symbols<'_>) -> Result<SymbolNames, AllocError>
    ensures { IfOk result (λ names. names ≡ symbol_names symbols.now 0 symbols.now.names) }
{
    let mut names = Sequence::new(alloc);
    'symbols: for number in 0..symbols.len() {
        names.push(SymbolName {
            name: Sequence::from_slice(alloc, symbols.name(number))?,
            local: symbols.is_local(number),
        })?;
    }
    Ok(names)
}

fn set_need(needs: &mut Items<u32>, function: &Function)
    ensures { needs.new ≡ with_need needs.old function.now }
{
    let number = function.symbol as usize;
    if number < needs.len() {
        needs.set(number, function.need);
    }
}

fn no_needs(alloc: Global, symbols: &Symbols<'_>) -> Result<Items<u32>, AllocError>
    ensures { IfOk result (λ needs. needs ≡ replicate (length symbols.now.names) 0) }
{
    let mut needs = Items::new(alloc);
    'symbols: for _ in 0..symbols.len() {
        needs.push(0)?;
    }
    Ok(needs)
}

// The stack that calls need, by the number of the function's symbol.
fn needs_of(
    alloc: Global,
    symbols: &Symbols<'_>,
    functions: &[Function],
) -> Result<Items<u32>, AllocError>
    ensures { IfOk result (λ needs. needs ≡ needs_of symbols.now functions.now) }
{
    let mut needs = no_needs(alloc, symbols)?;
    'functions: for function in functions {
        set_need(&mut needs, function);
    }
    Ok(needs)
}

fn names_function(scope: &Scope<'_>, name: &[u8]) -> bool
    ensures { result ≡ names_function scope.now name.now }
{
    match scope.declared(name) {
        Some(declared) => matches!(declared.entity, Entity::Function(_)),
        None => false,
    }
}

fn stated_size(scope: &Scope<'_>, name: &[u8]) -> u32
    ensures { result ≡ stated_size scope.now name.now }
{
    match scope.declared(name) {
        Some(declared) => match &declared.entity {
            Entity::Object(_, ctype) => declared_size(scope, ctype).unwrap_or(0),
            Entity::Temporary(..) | Entity::Local(..) | Entity::Function(_) => 0,
        },
        None => 0,
    }
}

// A symbol that other units see, as a definition or a use.
fn face_with(
    alloc: Global,
    symbols: &Symbols<'_>,
    scope: &Scope<'_>,
    needs: &Items<u32>,
    face: &mut Face,
    number: u32,
) -> Result<(), AllocError>
    requires { number < length symbols.now.names }
    ensures { OnOk result (face.new ≡ face_with symbols.now scope.now needs.now face.old number (name_of symbols.now number)) }
{
    if symbols.is_local(number) {
        return Ok(());
    }
    let name = symbols.name(number);
    let size = stated_size(scope, name);
    if symbols.is_defined(name) {
        face.defs.push(Def {
            name: Sequence::from_slice(alloc, name)?,
            function: names_function(scope, name),
            size,
            need: needs.get(number as usize).copied().unwrap_or(0),
        })
    } else {
        face.uses.push(Wanted {
            name: Sequence::from_slice(alloc, name)?,
            stated: size,
            shared: false,
        })
    }
}

// The symbols that other units see, in their order.
fn add_symbols(
    alloc: Global,
    symbols: &Symbols<'_>,
    scope: &Scope<'_>,
    needs: &Items<u32>,
    face: &mut Face,
) -> Result<(), AllocError>
    ensures { OnOk result (face.new ≡ face_from symbols.now scope.now needs.now face.old 0 symbols.now.names) }
{
    'symbols: for number in 0..symbols.len() {
        face_with(alloc, symbols, scope, needs, face, number)?;
    }
    Ok(())
}

/// What other units see of the unit whose functions these are, where this is visible behind its last declaration.
pub(crate) fn face_of(
    alloc: Global,
    symbols: &Symbols<'_>,
    scope: &Scope<'_>,
    functions: &[Function],
) -> Result<Face, AllocError>
    ensures { IfOk result (λ face. face ≡ face_of symbols.now scope.now functions.now) }
{
    let needs = needs_of(alloc, symbols, functions)?;
    let mut face = Face {
        defs: Sequence::new(alloc),
        uses: Sequence::new(alloc),
    };
    add_symbols(alloc, symbols, scope, &needs, &mut face)?;
    Ok(face)
}

fn int() -> ValueType
    ensures { result ≡ int_value }
{
    ValueType {
        base: ValueBase::Int,
        stars: 0,
    }
}

fn void() -> ValueType
    ensures { result ≡ void_value }
{
    ValueType {
        base: ValueBase::Void,
        stars: 0,
    }
}

// What is known of a name without a declaration.
fn undeclared(alloc: Global, name: &[u8]) -> Result<Callee, AllocError>
    ensures { IfOk result (λ callee. callee ≡ undeclared name.now) }
{
    let mut parameters = Items::new(alloc);
    if name == b"getbyte".as_slice() {
        return Ok(Callee::Function(Signature {
            result: int(),
            parameters,
        }));
    }
    if name == b"putbyte".as_slice() {
        parameters.push(int())?;
        return Ok(Callee::Function(Signature {
            result: void(),
            parameters,
        }));
    }
    Ok(Callee::Object)
}

fn all_undeclared(alloc: Global, symbols: &Symbols<'_>) -> Result<Items<Callee>, AllocError>
    ensures { IfOk result (λ callees. callees ≡ map undeclared symbols.now.names) }
{
    let mut callees = Items::new(alloc);
    'symbols: for number in 0..symbols.len() {
        callees.push(undeclared(alloc, symbols.name(number))?)?;
    }
    Ok(callees)
}

fn set_callee(
    alloc: Global,
    symbols: &Symbols<'_>,
    callees: &mut Items<Callee>,
    head: &Head,
) -> Result<(), AllocError>
    ensures { OnOk result (callees.new ≡ with_head symbols.now callees.old head.now) }
{
    let Some(number) = symbols.number(head.name.bytes.as_slice()) else {
        return Ok(());
    };
    let signature = signature_of(alloc, head)?;
    if (number as usize) < callees.len() {
        callees.set(number as usize, Callee::Function(signature));
    }
    Ok(())
}

fn see_external(
    alloc: Global,
    symbols: &Symbols<'_>,
    callees: &mut Items<Callee>,
    external: &External,
) -> Result<(), AllocError>
    ensures { OnOk result (callees.new ≡ with_external symbols.now callees.old external.now) }
{
    match external {
        External::Struct(..) | External::Objects(..) => Ok(()),
        External::Prototype(head) => set_callee(alloc, symbols, callees, head),
        External::Function(head, ..) => set_callee(alloc, symbols, callees, head),
    }
}

/// What a unit declares of its symbols.
pub(crate) fn callees_of(
    alloc: Global,
    symbols: &Symbols<'_>,
    tree: &[External],
) -> Result<Items<Callee>, AllocError>
    ensures { IfOk result (λ callees. callees ≡ callees_of symbols.now tree.now) }
{
    let mut callees = all_undeclared(alloc, symbols)?;
    'externals: for external in tree {
        see_external(alloc, symbols, &mut callees, external)?;
    }
    Ok(callees)
}
