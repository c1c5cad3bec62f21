//! A token, and what it gives to a tree.
ghost use Rattle.std.specs.Prelude.{◌≡◌};
ghost use Rattle.plc_tokens.specs.Sorts as spec;

use crate::sort::Sort;
use plc_base::{Kind, Place};

/// A token of a source.
#[derive(Debug, Drop)]
pub struct Token {
    pub kind: Kind,
    /// What a grammar sees of the kind.
    pub sort: Sort,
    pub place: Place,
    /// Line and column of its last byte; of the end and of a bad token the place itself.
    pub last: (u32, u32),
    /// Whether a line break stands before it.
    pub fresh: bool,
}

/// The name that a token gives.
pub fn name_of(kind: &Kind) -> &[u8]
    ensures { result.now ≡ spec.name_of kind.now }
{
    match kind {
        Kind::Word(word) => word.bytes(),
        _ => &[],
    }
}

/// The integer that a token gives.
pub fn number_of(kind: &Kind) -> i128
    ensures { result ≡ spec.number_of kind.now }
{
    match kind {
        Kind::Number { value, .. } => *value,
        _ => 0,
    }
}

/// The truth value that a token gives.
pub fn truth_of(kind: &Kind) -> bool
    ensures { result ≡ spec.truth_of kind.now }
{
    match kind {
        Kind::Truth(value) => *value,
        _ => false,
    }
}

/// The nanoseconds that a token gives.
pub fn span_of(kind: &Kind) -> i64
    ensures { result ≡ spec.span_of kind.now }
{
    match kind {
        Kind::Span(ns) => *ns,
        _ => 0,
    }
}
