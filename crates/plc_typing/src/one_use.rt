//! One use of a name or a number, and whether it breaks a rule.
ghost use Rattle.std.specs.Prelude.{◌≡◌};
ghost use Rattle.plc_base.specs.Least.{Meets};
ghost use Rattle.plc_typing.specs.Uses as spec;

use plc_base::{Least, Place, Rule};

/// Milliseconds in nanoseconds.
const MILLISECOND: i64 = 1_000_000;

/// What stands there is what its place wants, or it is broken.
pub fn suits(does: bool, at: Place, met: &mut Least)
    ensures { Meets (spec.suits does at) met.old met.new }
{
    met.want(does, Rule::NotYet, at);
}

/// An interval is 1 ms to 1000000 ms.
pub fn is_interval(ns: i64) -> bool
    ensures { result ≡ spec.is_interval ns }
{
    MILLISECOND <= ns && ns <= 1_000_000 * MILLISECOND
}

/// A priority is 0 to 65535.
pub fn is_priority(value: i128) -> bool
    ensures { result ≡ spec.is_priority value }
{
    0 <= value && value <= 65535
}
