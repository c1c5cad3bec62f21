//! The declarations of a source as they are written, in a row: its names and the types that it makes.

use crate::names::NameKind;
use crate::types::TypeId;
use plc_base::{Name, Place};
use sqlite_items::Items;

/// What the type of a name is written as.
#[derive(Drop)]
pub enum Written {
    /// It has none.
    Untyped,
    /// A type that is made there, or a block.
    Itself(TypeId),
    /// The name of a type.
    ByName(Name),
}

/// A declared name.
#[derive(Drop)]
pub struct Declaration {
    pub name: Name,
    pub at: Place,
    /// Whether it stands in the source, and not in the library.
    pub own: bool,
    pub kind: NameKind,
    pub scope: u32,
    /// The scope that it opens.
    pub inner: Option<u32>,
    /// Whether its section says CONSTANT.
    pub constant: bool,
    pub ty: Written,
}

/// What the type of a field is written as.
#[derive(Drop)]
pub enum PartType {
    ByName(Name),
    /// A subrange, which is the next type that is made.
    Sub,
    /// An array, which is the next type that is made.
    Array,
}

/// A field as it is written.
#[derive(Drop)]
pub struct Part {
    pub name: Name,
    pub ty: PartType,
}

/// A type that is made, as it is written.
#[derive(Drop)]
pub enum Made {
    /// An enumeration, by its values.
    Enum(Items<Name>),
    Struct(Items<Part>),
    Sub {
        base: Name,
        low: i128,
        high: i128,
    },
    Array {
        /// Whether it is declared as a type.
        named: bool,
        bounds: Items<(i128, i128)>,
        element: Name,
    },
}
