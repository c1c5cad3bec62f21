//! The levels of expressions.
ghost use Rattle.std.specs.Prelude.{◌≡◌};
ghost use Rattle.st_expr.specs.Expressions as spec;

use plc_tokens::sets::{AND, COMPARISON, EQUALITY, OR, PRODUCT, SIGN, XOR};
use plc_tokens::sort::Seen;
use plc_tree::tree::UnOp;

/// Which expressions may stand at a place, from those that bind least.
#[derive(Clone, Copy, Debug, PartialEq, Eq)]
pub enum Level {
    /// What OR joins, and so any expression.
    Whole,
    /// What XOR joins.
    Xor,
    /// What `&` joins.
    And,
    /// What `=` and `<>` join.
    Equality,
    /// What `<`, `>`, `<=` and `>=` join.
    Comparison,
    /// What `+` and `-` join.
    Sum,
    /// What `*`, `/` and MOD join.
    Term,
    /// A primary, or one behind `-` or NOT.
    Unary,
    /// What NOT stands before.
    Primary,
    /// What `-` stands before, where the two are no literal.
    Other,
}

/// The operators of a level.
pub fn operators(level: Level) -> &'static [Seen]
    ensures { result.now ≡ spec.joining level }
{
    match level {
        Level::Whole => &OR,
        Level::Xor => &XOR,
        Level::And => &AND,
        Level::Equality => &EQUALITY,
        Level::Comparison => &COMPARISON,
        Level::Sum => &SIGN,
        Level::Term => &PRODUCT,
        Level::Unary | Level::Primary | Level::Other => &[],
    }
}

/// The level of their sides.
pub fn side_of(level: Level) -> Level
    ensures { result ≡ spec.side_of level }
{
    match level {
        Level::Whole => Level::Xor,
        Level::Xor => Level::And,
        Level::And => Level::Equality,
        Level::Equality => Level::Comparison,
        Level::Comparison => Level::Sum,
        Level::Sum => Level::Term,
        Level::Term | Level::Unary => Level::Unary,
        Level::Primary => Level::Primary,
        Level::Other => Level::Other,
    }
}

/// What a sign stands before.
pub fn under_sign(sign: UnOp) -> Level
    ensures { result ≡ spec.under_sign sign }
{
    match sign {
        UnOp::Minus => Level::Other,
        UnOp::Not => Level::Primary,
    }
}
