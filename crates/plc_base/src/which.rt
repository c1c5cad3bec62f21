//! The cases in which the stated C leaves what happens undefined.

/// Why a statement of the stated C has no meaning.
#[derive(Clone, Copy, Debug, PartialEq, Eq)]
pub enum Which {
    /// A signed result that its type can't hold (C99, 6.5).
    Overflow,
    /// A division or a remainder by zero (C99, 6.5.5).
    DivZero,
    /// A shift by a negative number, by the width or more, or of a negative number (C99, 6.5.7; to the right by this project's own rule).
    Shift,
    /// An element outside its array (C99, 6.5.6).
    Index,
    /// A located object whose cell was not set, by this project's own rule.
    Unset,
}
