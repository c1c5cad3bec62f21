//! Literals.
ghost use Rattle.std.specs.Prelude.{◌≡◌, IfOk};
ghost use Rattle.phrase.specs.Reads.{Reads};
ghost use Rattle.st_expr.specs.Expressions as spec;

use crate::token_name::token_name;
use phrase::Stop;
use plc_base::{Elem, Kind};
use plc_tokens::Token;
use plc_tokens::reader::Reader;
use plc_tokens::sets::{HASH, INTEGER, NAME};
use plc_tokens::sort::Seen;
use plc_tokens::token::{number_of, span_of, truth_of};
use plc_tree::tree::Expr;
use std::alloc::Global;

/// The type before `#` that a token gives.
pub fn want_of(kind: &Kind) -> Option<Elem>
    ensures { result ≡ spec.want_of kind.now }
{
    match kind {
        Kind::Number { want, .. } => *want,
        _ => None,
    }
}

/// The number of `-` and an integer.
pub fn negated(value: i128) -> i128
    ensures { result ≡ spec.negated value }
{
    if value < 0 { 0 } else { -value }
}

/// An integer.
#[tactic(auto, unfolding(crate::specs::Expressions::number))]
pub fn number(tokens: &mut Reader<'_>, sorts: &[Seen], line: bool) -> Result<(Expr, u32), Stop>
    ensures value { Reads ((spec.number sorts.now line).run tokens.old) result tokens.new }
    ensures low { IfOk result (λ x. x.1 ≡ 0) }
{
    let token = tokens.take_in(line, sorts)?;
    Ok((
        Expr::Number {
            value: number_of(&token.kind),
            want: want_of(&token.kind),
            at: token.place,
        },
        0,
    ))
}

/// TRUE or FALSE.
#[tactic(auto, unfolding(crate::specs::Expressions::truth))]
pub fn truth(tokens: &mut Reader<'_>, sorts: &[Seen], line: bool) -> Result<(Expr, u32), Stop>
    ensures value { Reads ((spec.truth sorts.now line).run tokens.old) result tokens.new }
    ensures low { IfOk result (λ x. x.1 ≡ 0) }
{
    let token = tokens.take_in(line, sorts)?;
    Ok((
        Expr::Truth {
            value: truth_of(&token.kind),
            at: token.place,
        },
        0,
    ))
}

/// A duration.
#[tactic(auto, unfolding(crate::specs::Expressions::span))]
pub fn span(tokens: &mut Reader<'_>, sorts: &[Seen], line: bool) -> Result<(Expr, u32), Stop>
    ensures value { Reads ((spec.span sorts.now line).run tokens.old) result tokens.new }
    ensures low { IfOk result (λ x. x.1 ≡ 0) }
{
    let token = tokens.take_in(line, sorts)?;
    Ok((
        Expr::Span {
            ns: span_of(&token.kind),
            at: token.place,
        },
        0,
    ))
}

/// What follows `-` in a literal.
#[tactic(auto, unfolding(crate::specs::Expressions::negative_rest))]
pub fn negative_rest(tokens: &mut Reader<'_>, line: bool, sign: &Token) -> Result<(Expr, u32), Stop>
    ensures value { Reads ((spec.negative_rest line sign.now).run tokens.old) result tokens.new }
    ensures low { IfOk result (λ x. x.1 ≡ 0) }
{
    let token = tokens.take_in(line, &INTEGER)?;
    Ok((
        Expr::Number {
            value: negated(number_of(&token.kind)),
            want: None,
            at: sign.place,
        },
        0,
    ))
}

/// `-` and an integer.
#[tactic(auto, unfolding(crate::specs::Expressions::negative))]
pub fn negative(tokens: &mut Reader<'_>, sorts: &[Seen], line: bool) -> Result<(Expr, u32), Stop>
    ensures value { Reads ((spec.negative sorts.now line).run tokens.old) result tokens.new }
    ensures low { IfOk result (λ x. x.1 ≡ 0) }
{
    let sign = tokens.take_in(line, sorts)?;
    negative_rest(tokens, line, sign)
}

/// What follows the name of an enumeration: `#` and the name of a value.
#[tactic(auto, unfolding(crate::specs::Expressions::value_rest))]
pub fn value_rest(
    alloc: Global,
    tokens: &mut Reader<'_>,
    line: bool,
    token: &Token,
) -> Result<(Expr, u32), Stop>
    ensures value { Reads ((spec.value_rest line token.now).run tokens.old) result tokens.new }
    ensures low { IfOk result (λ x. x.1 ≡ 0) }
{
    tokens.take_in(line, &HASH)?;
    let second = tokens.take_in(line, &NAME)?;
    Ok((
        Expr::Value {
            owner: token_name(alloc, token)?,
            name: token_name(alloc, second)?,
            at: token.place,
            name_at: second.place,
        },
        0,
    ))
}

/// A value of an enumeration that is named before `#`.
#[tactic(auto, unfolding(crate::specs::Expressions::value))]
pub fn value(
    alloc: Global,
    tokens: &mut Reader<'_>,
    sorts: &[Seen],
    line: bool,
) -> Result<(Expr, u32), Stop>
    ensures value { Reads ((spec.value sorts.now line).run tokens.old) result tokens.new }
    ensures low { IfOk result (λ x. x.1 ≡ 0) }
{
    let token = tokens.take_in(line, sorts)?;
    value_rest(alloc, tokens, line, token)
}
