// What names mean.
use sqlite_items::Items;
use typing_types::CType;

/// What calls of a function know of it.
#[derive(Drop)]
pub struct Prototype<'t> {
    /// Its symbol.
    pub symbol: u32,
    /// The type of its result: `void`, an integer or a pointer.
    pub result: CType<'t>,
    /// The types of its parameters.
    pub parameters: Items<CType<'t>>,
}

/// What a name means.
#[derive(Drop)]
pub enum Entity<'t> {
    /// A parameter or `register` local, by its number.
    Temporary(u32, CType<'t>),
    /// Another local, by its number among the blocks.
    Local(u32, CType<'t>),
    /// An object of file scope, by its symbol.
    Object(u32, CType<'t>),
    Function(Prototype<'t>),
}

/// What the declarations of a name at file scope say of it.
#[derive(Drop)]
pub struct Declared<'t> {
    pub entity: Entity<'t>,
    pub is_static: bool,
    /// Whether one of them is a definition.
    pub is_defined: bool,
}

/// A member of a struct.
#[derive(Drop)]
pub struct Member<'t> {
    pub ctype: CType<'t>,
    /// Where it begins in the struct, in bytes.
    pub offset: u32,
}
