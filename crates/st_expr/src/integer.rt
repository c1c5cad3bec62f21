//! Whole numbers with a sign or none.
ghost use Rattle.phrase.specs.Reads.{Reads};
ghost use Rattle.st_expr.specs.Integers as spec;

use crate::literal::negated;
use phrase::Stop;
use plc_tokens::reader::Reader;
use plc_tokens::sets::{INTEGER, MINUS};
use plc_tokens::token::number_of;
use plc_tree::tree::Whole;

/// An integer.
#[tactic(auto, unfolding(crate::specs::Integers::whole))]
pub fn whole(tokens: &mut Reader<'_>) -> Result<Whole, Stop>
    ensures value { Reads (spec.whole.run tokens.old) result tokens.new }
{
    let token = tokens.take(&INTEGER)?;
    Ok(Whole {
        value: number_of(&token.kind),
        at: token.place,
    })
}

/// `-` and an integer.
#[tactic(auto, unfolding(crate::specs::Integers::minus_whole))]
fn minus_whole(tokens: &mut Reader<'_>) -> Result<Whole, Stop>
    ensures value { Reads (spec.minus_whole.run tokens.old) result tokens.new }
{
    let sign = tokens.take(&MINUS)?;
    let token = tokens.take(&INTEGER)?;
    Ok(Whole {
        value: negated(number_of(&token.kind)),
        at: sign.place,
    })
}

/// An integer, behind `-` or not.
#[tactic(auto, unfolding(crate::specs::Integers::sint))]
pub fn sint(tokens: &mut Reader<'_>) -> Result<Whole, Stop>
    ensures value { Reads (spec.sint.run tokens.old) result tokens.new }
{
    if tokens.sees(&MINUS) {
        minus_whole(tokens)
    } else {
        whole(tokens)
    }
}
