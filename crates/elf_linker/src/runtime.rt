// The runtime object.
ghost use Rattle.std.specs.Prelude.{◌≡◌, IfOk};
ghost use Rattle.elf_file.specs.WellFormed.{WellFormed};
ghost use Rattle.elf_linker.specs.Runtime.{runtime, runtime_function, main_symbol, runtime_symbols, runtime_relocs, runtime_text};

use cc_base::{Bytes, Name};
use elf_file::{
    ObjectParts, RelocKind, RelocPart, RelocParts, SymbolKind, SymbolPart, SymbolParts, SymbolPlace,
};
use std::alloc::{AllocError, Global};

/// `_start`, `getbyte` and `putbyte`, one behind the other.
const TEXT: &[u8; 94] =
    b"\xe8\xfc\xff\xff\xff\x89\xc3\xb8\x01\0\0\0\xcd\x80\x53\x81\xec\x04\0\0\0\xbb\0\0\0\0\x89\xe1\xba\x01\0\0\0\xb8\x03\0\0\0\xcd\x80\x85\xc0\x0f\x84\x09\0\0\0\x0f\xb6\x04\x24\xe9\x05\0\0\0\xb8\xff\xff\xff\xff\x81\xc4\x04\0\0\0\x5b\xc3\x53\xbb\x01\0\0\0\x8d\x4c\x24\x08\xba\x01\0\0\0\xb8\x04\0\0\0\xcd\x80\x5b\xc3";

// A function of the runtime: its name, its place in text, and its size.
fn function(alloc: Global, name: &[u8], value: u32, size: u32) -> Result<SymbolPart, AllocError>
    ensures { IfOk result (λ symbol. symbol ≡ runtime_function name.now value size) }
{
    Ok(SymbolPart {
        name: Name::from_slice(alloc, name)?,
        local: false,
        kind: SymbolKind::Func,
        place: SymbolPlace::At(1),
        value,
        size,
    })
}

// The symbol of `main`, which the runtime calls.
fn main_symbol(alloc: Global) -> Result<SymbolPart, AllocError>
    ensures { IfOk result (λ symbol. symbol ≡ main_symbol) }
{
    Ok(SymbolPart {
        name: Name::from_slice(alloc, b"main")?,
        local: false,
        kind: SymbolKind::NoType,
        place: SymbolPlace::Undefined,
        value: 0,
        size: 0,
    })
}

fn symbols(alloc: Global) -> Result<SymbolParts, AllocError>
    ensures { IfOk result (λ symbols. symbols ≡ runtime_symbols) }
{
    let mut symbols = SymbolParts::new(alloc);
    symbols.push(function(alloc, b"_start", 0, 14)?)?;
    symbols.push(main_symbol(alloc)?)?;
    symbols.push(function(alloc, b"getbyte", 14, 56)?)?;
    symbols.push(function(alloc, b"putbyte", 70, 24)?)?;
    Ok(symbols)
}

// The relocation of the call of `main`.
fn relocs(alloc: Global) -> Result<RelocParts, AllocError>
    ensures { IfOk result (λ relocs. relocs ≡ runtime_relocs) }
{
    let mut relocs = RelocParts::new(alloc);
    relocs.push(RelocPart {
        section: 1,
        offset: 1,
        symbol: 2,
        kind: RelocKind::Rel,
    })?;
    Ok(relocs)
}

fn text(alloc: Global) -> Result<Bytes, AllocError>
    ensures { IfOk result (λ text. text ≡ runtime_text) }
{
    Bytes::from_slice(alloc, TEXT)
}

/// The runtime object, which is linked behind all others: `_start`, which calls `main` and ends with its result,
/// `getbyte` and `putbyte`. The only error is want of memory.
pub fn runtime_parts(alloc: Global) -> Result<ObjectParts, AllocError>
    ensures runtime { IfOk result (λ parts. parts ≡ runtime) }
    // It may be written.
    ensures well_formed { IfOk result (λ parts. WellFormed parts) }
{
    Ok(ObjectParts {
        text: text(alloc)?,
        fixed: Bytes::new(alloc),
        held: Bytes::new(alloc),
        zeros: 0,
        symbols: symbols(alloc)?,
        relocs: relocs(alloc)?,
    })
}
