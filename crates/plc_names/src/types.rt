//! What types are and what they are made of (IEC 61131-3, 2.3).

use plc_base::{Elem, Name};
use sqlite_items::Items;

/// A type: an elementary one, or a declared one.
///
/// Enumerations, structures, subranges and arrays are numbered together from 0, in text order, those of the library before
/// those of the source. One that is written without a name has its number where it is written.
#[derive(Clone, Copy, Debug, PartialEq, Eq)]
pub enum TypeId {
    Elem(Elem),
    Enum(u32),
    Sub(u32),
    Array(u32),
    Struct(u32),
    /// A function block, by its scope.
    Block(u32),
}

/// What the name of a type stands for.
#[derive(Clone, Copy, Debug, PartialEq, Eq)]
pub enum Standing {
    Type(TypeId),
    /// A standard block that the library doesn't have, by its place in the list of standard blocks.
    Block(u8),
}

/// A field of a structure.
#[derive(Drop)]
pub struct Field {
    pub name: Name,
    pub ty: TypeId,
}

/// What a type is made of.
#[derive(Drop)]
pub enum Shape {
    Elem(Elem),
    /// An enumeration of these values, the first of which has the number 0.
    Enum(Items<Name>),
    /// All numbers of the base from `low` to `high`.
    Sub {
        base: Elem,
        low: i128,
        high: i128,
    },
    /// For each dimension its least and its greatest index.
    Array {
        bounds: Items<(i128, i128)>,
        element: TypeId,
    },
    Struct(Items<Field>),
    /// A function block, by its scope.
    Block(u32),
}
