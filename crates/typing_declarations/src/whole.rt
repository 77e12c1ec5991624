// What the whole text of a unit says of a name.
ghost use Rattle.std.specs.Prelude.{◌≡◌, [], IfOk, OnOk};
ghost use Rattle.typing_declarations.specs.Whole.{with_function, with_functions, whole_of, symbol_of, has_function, getbyte_of, putbyte_of, with_built_ins};

use sqlite_items::Items;
use std::alloc::{AllocError, Global};
use text_grammar::External;
use typing_scopes::{Entity, Prototype, Scope};
use typing_symbols::{Names, Symbols, symbols};
use typing_types::{CType, int};

/// What the whole text of a unit says of a name, wherever it is asked: its symbols, and which functions it defines.
#[derive(Drop)]
pub struct Whole<'t> {
    pub symbols: Symbols<'t>,
    pub functions: Names<'t>,
}

fn add_function<'t>(names: &mut Names<'t>, external: &'t External) -> Result<(), AllocError>
    ensures { OnOk result (names.new ≡ with_function names.old external.now) }
{
    match external {
        External::Struct(..) | External::Objects(..) | External::Prototype(_) => Ok(()),
        External::Function(head, ..) => names.add(head.name.bytes.as_slice()),
    }
}

// The functions that a unit defines.
fn functions<'t>(alloc: Global, tree: &'t [External]) -> Result<Names<'t>, AllocError>
    ensures { IfOk result (λ names. names ≡ with_functions [] tree.now) }
{
    let mut names = Names::new(alloc);
    'externals: for external in tree {
        add_function(&mut names, external)?;
    }
    Ok(names)
}

impl<'t> Whole<'t> {
    /// What this tree says.
    pub fn new(alloc: Global, tree: &'t [External]) -> Result<Whole<'t>, AllocError>
        ensures { IfOk result (λ whole. whole ≡ whole_of tree.now) }
    {
        Ok(Whole {
            symbols: symbols(alloc, tree)?,
            functions: functions(alloc, tree)?,
        })
    }

    /// The number of a name's symbol; 0 where the unit has none, so that no use of it is evaluated.
    pub fn symbol(&self, name: &[u8]) -> u32
        ensures { result ≡ symbol_of self.now name.now }
    {
        self.symbols.number(name).unwrap_or(0)
    }

    /// Whether the unit defines a function of this name.
    pub fn has_function(&self, name: &[u8]) -> bool
        ensures { result ≡ has_function self.now name.now }
    {
        self.functions.has(name)
    }
}

fn getbyte<'t>(alloc: Global, whole: &Whole<'t>) -> Prototype<'t>
    ensures { result ≡ getbyte_of whole.now }
{
    Prototype {
        symbol: whole.symbol(b"getbyte"),
        result: int(),
        parameters: Items::new(alloc),
    }
}

fn putbyte<'t>(alloc: Global, whole: &Whole<'t>) -> Result<Prototype<'t>, AllocError>
    ensures { IfOk result (λ p. p ≡ putbyte_of whole.now) }
{
    let mut parameters = Items::new(alloc);
    parameters.push(int())?;
    Ok(Prototype {
        symbol: whole.symbol(b"putbyte"),
        result: CType::plain(typing_types::Base::Void, 0),
        parameters,
    })
}

/// `getbyte` and `putbyte` are known without a declaration.
pub(crate) fn add_built_ins<'t>(
    alloc: Global,
    whole: &Whole<'t>,
    scope: &mut Scope<'t>,
) -> Result<(), AllocError>
    ensures { OnOk result (scope.new ≡ with_built_ins whole.now scope.old) }
{
    scope.build_in(b"getbyte", Entity::Function(getbyte(alloc, whole)))?;
    scope.build_in(b"putbyte", Entity::Function(putbyte(alloc, whole)?))
}
