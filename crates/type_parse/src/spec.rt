//! What a variable is of.
ghost use Rattle.phrase.specs.Reads.{Reads};
ghost use Rattle.type_parse.specs.Types as spec;

use crate::name::{id_of, tname};
use phrase::Stop;
use plc_tokens::reader::Reader;
use plc_tokens::sets::{
    ARRAY, COMMA, INTEGER_TYPE, LBRACKET, LPAREN, OF, OTHER_TYPE, RANGE, RBRACKET, RPAREN,
};
use plc_tree::tree::{Bounds, Id, Spec};
use sqlite_items::Items;
use st_expr::integer::sint;
use std::alloc::Global;

#[tactic(auto, unfolding(crate::specs::Types::bounds))]
fn bounds(tokens: &mut Reader<'_>) -> Result<Bounds, Stop>
    ensures { Reads (spec.bounds.run tokens.old) result tokens.new }
{
    let low = sint(tokens)?;
    tokens.take(&RANGE)?;
    let high = sint(tokens)?;
    Ok(Bounds { low, high })
}

#[tactic(auto, unfolding(crate::specs::Types::third_bounds))]
fn third_bounds(
    alloc: Global,
    tokens: &mut Reader<'_>,
    first: Bounds,
    second: Bounds,
) -> Result<Items<Bounds>, Stop>
    ensures { Reads ((spec.third_bounds first second).run tokens.old) result tokens.new }
{
    tokens.take(&COMMA)?;
    let third = bounds(tokens)?;
    let mut list = Items::new(alloc);
    list.push(first)?;
    list.push(second)?;
    list.push(third)?;
    Ok(list)
}

#[tactic(auto, unfolding(crate::specs::Types::third_if_any))]
fn third_if_any(
    alloc: Global,
    tokens: &mut Reader<'_>,
    first: Bounds,
    second: Bounds,
) -> Result<Items<Bounds>, Stop>
    ensures { Reads ((spec.third_if_any first second).run tokens.old) result tokens.new }
{
    if tokens.sees(&COMMA) {
        return third_bounds(alloc, tokens, first, second);
    }
    let mut list = Items::new(alloc);
    list.push(first)?;
    list.push(second)?;
    Ok(list)
}

#[tactic(auto, unfolding(crate::specs::Types::second_bounds))]
fn second_bounds(
    alloc: Global,
    tokens: &mut Reader<'_>,
    first: Bounds,
) -> Result<Items<Bounds>, Stop>
    ensures { Reads ((spec.second_bounds first).run tokens.old) result tokens.new }
{
    tokens.take(&COMMA)?;
    let second = bounds(tokens)?;
    third_if_any(alloc, tokens, first, second)
}

#[tactic(auto, unfolding(crate::specs::Types::second_if_any))]
fn second_if_any(
    alloc: Global,
    tokens: &mut Reader<'_>,
    first: Bounds,
) -> Result<Items<Bounds>, Stop>
    ensures { Reads ((spec.second_if_any first).run tokens.old) result tokens.new }
{
    if tokens.sees(&COMMA) {
        return second_bounds(alloc, tokens, first);
    }
    let mut list = Items::new(alloc);
    list.push(first)?;
    Ok(list)
}

#[tactic(auto, unfolding(crate::specs::Types::dimensions))]
fn dimensions(alloc: Global, tokens: &mut Reader<'_>) -> Result<Items<Bounds>, Stop>
    ensures { Reads (spec.dimensions.run tokens.old) result tokens.new }
{
    let first = bounds(tokens)?;
    second_if_any(alloc, tokens, first)
}

#[tactic(auto, unfolding(crate::specs::Types::array))]
fn array(alloc: Global, tokens: &mut Reader<'_>) -> Result<Spec, Stop>
    ensures { Reads (spec.array.run tokens.old) result tokens.new }
{
    let word = tokens.take(&ARRAY)?;
    let bracket = tokens.take(&LBRACKET)?;
    let bounds = dimensions(alloc, tokens)?;
    tokens.take(&RBRACKET)?;
    tokens.take(&OF)?;
    let element = tname(alloc, tokens)?;
    Ok(Spec::Array {
        bounds,
        element,
        at: word.place,
        bracket: bracket.place,
    })
}

#[tactic(auto, unfolding(crate::specs::Types::limits))]
fn limits(tokens: &mut Reader<'_>, base: Id) -> Result<Spec, Stop>
    ensures { Reads ((spec.limits base).run tokens.old) result tokens.new }
{
    tokens.take(&LPAREN)?;
    let bounds = bounds(tokens)?;
    tokens.take(&RPAREN)?;
    Ok(Spec::Sub { base, bounds })
}

#[tactic(auto, unfolding(crate::specs::Types::limits_if_any))]
fn limits_if_any(tokens: &mut Reader<'_>, base: Id) -> Result<Spec, Stop>
    ensures { Reads ((spec.limits_if_any base).run tokens.old) result tokens.new }
{
    if tokens.sees(&LPAREN) {
        limits(tokens, base)
    } else {
        Ok(Spec::Named(base))
    }
}

#[tactic(auto, unfolding(crate::specs::Types::integer_type))]
fn integer_type(alloc: Global, tokens: &mut Reader<'_>) -> Result<Spec, Stop>
    ensures { Reads (spec.integer_type.run tokens.old) result tokens.new }
{
    let word = tokens.take(&INTEGER_TYPE)?;
    let base = id_of(alloc, word)?;
    limits_if_any(tokens, base)
}

#[tactic(auto, unfolding(crate::specs::Types::other_type))]
fn other_type(alloc: Global, tokens: &mut Reader<'_>) -> Result<Spec, Stop>
    ensures { Reads (spec.other_type.run tokens.old) result tokens.new }
{
    let word = tokens.take(&OTHER_TYPE)?;
    Ok(Spec::Named(id_of(alloc, word)?))
}

/// A type's name, a subrange or an array.
#[tactic(auto, unfolding(crate::specs::Types::spec))]
pub fn spec(alloc: Global, tokens: &mut Reader<'_>) -> Result<Spec, Stop>
    ensures { Reads (spec.spec.run tokens.old) result tokens.new }
{
    if tokens.sees(&ARRAY) {
        return array(alloc, tokens);
    }
    if tokens.sees(&INTEGER_TYPE) {
        return integer_type(alloc, tokens);
    }
    other_type(alloc, tokens)
}
