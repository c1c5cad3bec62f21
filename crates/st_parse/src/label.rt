//! The labels of CASE.
ghost use Rattle.std.specs.Prelude.{◌≡◌};
ghost use Rattle.phrase.specs.Piece.{many};
ghost use Rattle.phrase.specs.Reads.{OnlyMemory, Reads};
ghost use Rattle.plc_tokens.specs.Sets.{COMMA};
ghost use Rattle.st_parse.specs.Statements as spec;

use phrase::Stop;
use plc_tokens::Token;
use plc_tokens::reader::Reader;
use plc_tokens::sets::{COLON, COMMA, HASH, NAME, RANGE, SIGNED};
use plc_tree::tree::{Label, Whole};
use sqlite_items::Items;
use st_expr::integer::sint;
use st_expr::token_name::token_name;
use std::alloc::Global;

#[tactic(auto, unfolding(crate::specs::Statements::range_end))]
fn range_end(tokens: &mut Reader<'_>, low: Whole) -> Result<Label, Stop>
    ensures value { Reads ((spec.range_end low).run tokens.old) result tokens.new }
{
    tokens.take(&RANGE)?;
    let high = sint(tokens)?;
    Ok(Label::Range {
        low: low.value,
        high: high.value,
        at: low.at,
    })
}

#[tactic(auto, unfolding(crate::specs::Statements::range_if_any))]
fn range_if_any(tokens: &mut Reader<'_>, low: Whole) -> Result<Label, Stop>
    ensures value { Reads ((spec.range_if_any low).run tokens.old) result tokens.new }
{
    if tokens.sees(&RANGE) {
        range_end(tokens, low)
    } else {
        Ok(Label::Range {
            low: low.value,
            high: low.value,
            at: low.at,
        })
    }
}

#[tactic(auto, unfolding(crate::specs::Statements::numbers))]
fn numbers(tokens: &mut Reader<'_>) -> Result<Label, Stop>
    ensures value { Reads (spec.numbers.run tokens.old) result tokens.new }
{
    let low = sint(tokens)?;
    range_if_any(tokens, low)
}

fn owned_of(alloc: Global, owner: &Token, name: &Token) -> Result<Label, Stop>
    ensures { OnlyMemory result (spec.owned_of owner.now name.now) }
{
    Ok(Label::Value {
        owner: Some(token_name(alloc, owner)?),
        name: token_name(alloc, name)?,
        at: owner.place,
        name_at: name.place,
    })
}

#[tactic(auto, unfolding(crate::specs::Statements::owned))]
fn owned(alloc: Global, tokens: &mut Reader<'_>, owner: &Token) -> Result<Label, Stop>
    ensures value { Reads ((spec.owned owner.now).run tokens.old) result tokens.new }
{
    tokens.take(&HASH)?;
    let name = tokens.take(&NAME)?;
    owned_of(alloc, owner, name)
}

fn alone_of(alloc: Global, name: &Token) -> Result<Label, Stop>
    ensures { OnlyMemory result (spec.alone_of name.now) }
{
    Ok(Label::Value {
        owner: None,
        name: token_name(alloc, name)?,
        at: name.place,
        name_at: name.place,
    })
}

#[tactic(auto, unfolding(crate::specs::Statements::value_label))]
fn value_label(alloc: Global, tokens: &mut Reader<'_>, name: &Token) -> Result<Label, Stop>
    ensures value { Reads ((spec.value_label name.now).run tokens.old) result tokens.new }
{
    if tokens.sees(&HASH) {
        owned(alloc, tokens, name)
    } else {
        alone_of(alloc, name)
    }
}

#[tactic(auto, unfolding(crate::specs::Statements::named_label))]
fn named_label(alloc: Global, tokens: &mut Reader<'_>) -> Result<Label, Stop>
    ensures value { Reads (spec.named_label.run tokens.old) result tokens.new }
{
    let name = tokens.take(&NAME)?;
    value_label(alloc, tokens, name)
}

#[tactic(auto, unfolding(crate::specs::Statements::label))]
fn label(alloc: Global, tokens: &mut Reader<'_>) -> Result<Label, Stop>
    ensures value { Reads (spec.label.run tokens.old) result tokens.new }
{
    if tokens.sees(&SIGNED) {
        numbers(tokens)
    } else {
        named_label(alloc, tokens)
    }
}

#[tactic(auto, unfolding(crate::specs::Statements::next_label))]
fn next_label(
    alloc: Global,
    tokens: &mut Reader<'_>,
    mut list: Items<Label>,
) -> Result<Items<Label>, Stop>
    ensures value { Reads ((spec.next_label list).run tokens.old) result tokens.new }
{
    tokens.take(&COMMA)?;
    let next = label(alloc, tokens)?;
    list.push(next)?;
    Ok(list)
}

#[tactic(auto, using(phrase::proofs::Loops::going_starts, phrase::proofs::Loops::going_on, phrase::proofs::Loops::going_fails, phrase::proofs::Loops::going_stops, phrase::proofs::Loops::going_ends))]
fn labels_after(
    alloc: Global,
    tokens: &mut Reader<'_>,
    mut list: Items<Label>,
) -> Result<Items<Label>, Stop>
    ensures value { Reads ((many COMMA spec.next_label list).run tokens.old) result tokens.new }
{
    for _turn in 0..tokens.left() {
        if !tokens.sees(&COMMA) {
            return Ok(list);
        }
        list = next_label(alloc, tokens, list)?;
    }
    Ok(list)
}

#[tactic(auto, unfolding(crate::specs::Statements::more_labels))]
fn more_labels(alloc: Global, tokens: &mut Reader<'_>, first: Label) -> Result<Items<Label>, Stop>
    ensures value { Reads ((spec.more_labels first).run tokens.old) result tokens.new }
{
    let mut list = Items::new(alloc);
    list.push(first)?;
    let list = labels_after(alloc, tokens, list)?;
    tokens.take(&COLON)?;
    Ok(list)
}

/// The labels of an arm and `:`, where a number is the first.
#[tactic(auto, unfolding(crate::specs::Statements::number_labels))]
pub fn number_labels(alloc: Global, tokens: &mut Reader<'_>) -> Result<Items<Label>, Stop>
    ensures value { Reads (spec.number_labels.run tokens.old) result tokens.new }
{
    let first = numbers(tokens)?;
    more_labels(alloc, tokens, first)
}

/// The labels of an arm and `:`, behind the name at their front.
#[tactic(auto, unfolding(crate::specs::Statements::value_labels))]
pub fn value_labels(
    alloc: Global,
    tokens: &mut Reader<'_>,
    name: &Token,
) -> Result<Items<Label>, Stop>
    ensures value { Reads ((spec.value_labels name.now).run tokens.old) result tokens.new }
{
    let first = value_label(alloc, tokens, name)?;
    more_labels(alloc, tokens, first)
}

#[tactic(auto, unfolding(crate::specs::Statements::named_labels))]
fn named_labels(alloc: Global, tokens: &mut Reader<'_>) -> Result<Items<Label>, Stop>
    ensures value { Reads (spec.named_labels.run tokens.old) result tokens.new }
{
    let name = tokens.take(&NAME)?;
    value_labels(alloc, tokens, name)
}

/// The labels of an arm and `:`.
#[tactic(auto, unfolding(crate::specs::Statements::labels))]
pub fn labels(alloc: Global, tokens: &mut Reader<'_>) -> Result<Items<Label>, Stop>
    ensures value { Reads (spec.labels.run tokens.old) result tokens.new }
{
    if tokens.sees(&SIGNED) {
        number_labels(alloc, tokens)
    } else {
        named_labels(alloc, tokens)
    }
}
