//! What a place wants of a name of the scope of the source.

/// What a place wants of its name.
#[derive(Clone, Copy, Debug, PartialEq, Eq)]
pub enum Want {
    /// A type, but not that of a block.
    AType,
    /// A type, also that of a block.
    ATypeOrBlock,
    /// A type without parts.
    ALeafType,
    /// An enumeration.
    AnEnum,
    AProgram,
}
