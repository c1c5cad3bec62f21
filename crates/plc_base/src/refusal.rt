//! Places in a source, and why a source is refused there.
ghost use Rattle.std.specs.Prelude.{◌≡◌};

use crate::OutOfMemory;
use std::alloc::AllocError;

/// Where a token begins.
#[derive(Clone, Copy, Debug, PartialEq, Eq)]
pub struct Place {
    /// The number of its file, from 0, in the order of fetches.
    pub file: u32,
    /// Its line, from 1.
    pub line: u32,
    /// Its column in bytes, from 1.
    pub col: u32,
    /// Its number in the list of tokens, from 0.
    pub token: u32,
}

/// A rule that a source can break.
#[derive(Clone, Copy, Debug, PartialEq, Eq)]
pub enum Rule {
    /// No token begins with this byte.
    L1,
    /// A comment doesn't end.
    L2,
    /// A literal or an address is of no form.
    L3,
    /// An integer is outside -2^63 to 2^64-1, or a duration outside TIME.
    L4,
    /// A word has more than 64 bytes.
    L5,
    /// A file has more than 4 MiB.
    L6,
    /// No source begins with the tokens up to this one.
    G1,
    /// The token opens a node, with more than 64 of them one in another.
    G2,
    /// A token of something that is left out of the language, where G1 would stand.
    U1,
    /// What stands there is of the language, but not of the part that is built.
    NotYet,
    /// A name is declared again in its scope.
    N1,
    /// No declaration has the name.
    N2,
    /// A name is of another kind than its place needs.
    N3,
    /// A type or a unit is used before its declaration.
    N4,
    /// A declaration needs itself.
    N5,
    /// A value is listed again in its enumeration.
    N6,
    /// A lower bound is above the upper one, or a bound is outside its type.
    N7,
    /// An initial value, an interval or a priority is none that its place can have.
    N8,
    /// An address is none of a variable of this type.
    N9,
    /// A chart has an initial step before this one.
    N10,
    /// There is more than a limit allows.
    N11,
}

/// The first broken rule and its place.
#[derive(Clone, Copy, Debug, PartialEq, Eq)]
pub struct Refusal {
    pub rule: Rule,
    pub place: Place,
}

/// Why a pass over a source gave nothing.
#[derive(Clone, Copy, Debug, PartialEq, Eq)]
pub enum Stop {
    Refused(Refusal),
    OutOfMemory,
}

impl From<OutOfMemory> for Stop {
    ghost use Rattle.plc_base.specs.declared.refusal.Stop.TheVariants as stop;

    ghost from_gives = { λ _ s. s ≡ stop.OutOfMemory };

    fn from(_: OutOfMemory) -> Stop {
        Stop::OutOfMemory
    }
}

impl From<AllocError> for Stop {
    ghost use Rattle.plc_base.specs.declared.refusal.Stop.TheVariants as stop;

    ghost from_gives = { λ _ s. s ≡ stop.OutOfMemory };

    fn from(_: AllocError) -> Stop {
        Stop::OutOfMemory
    }
}
