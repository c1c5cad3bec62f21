//! What tokens are, as all definitions above see them.

use crate::{Elem, Name, Rule};
use sqlite_items::Items;

/// What a token is.
#[derive(Debug, Drop)]
pub enum Kind {
    /// A word in capitals, reserved or not.
    Word(Name),
    /// An integer; the type, where one stands before it.
    Number {
        value: i128,
        want: Option<Elem>,
    },
    /// TRUE or FALSE, also as a literal of BOOL.
    Truth(bool),
    /// A duration in nanoseconds.
    Span(i64),
    /// An address: a direction, which is I, Q or M, a size, which is X, B, W, D or L, both as capital letters in
    /// ASCII, and its numbers. One above 65535 is kept as 65536.
    Address {
        dir: u8,
        size: u8,
        numbers: Items<u32>,
    },
    /// A symbol, by its place from 0 in the list of symbols.
    Symbol(u8),
    /// An inclusion, with the name of the file as it is written.
    Include(Name),
    /// A token, in capitals, of what the profile leaves out.
    Left(Name),
    /// The end of the source.
    End,
    /// No token: the rule that is broken there. It ends the list.
    Bad(Rule),
}
