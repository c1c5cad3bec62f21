//! Names where they stand.
ghost use Rattle.phrase.specs.Piece.{many};
ghost use Rattle.phrase.specs.Reads.{OnlyMemory, Reads};
ghost use Rattle.plc_tokens.specs.Sets.{COMMA};
ghost use Rattle.type_parse.specs.Names as spec;

use phrase::Stop;
use plc_tokens::Token;
use plc_tokens::reader::Reader;
use plc_tokens::sets::{COMMA, NAME, TYPE_NAME};
use plc_tree::tree::Id;
use sqlite_items::Items;
use st_expr::token_name::token_name;
use std::alloc::Global;

/// The name that a token gives, at its place.
pub fn id_of(alloc: Global, token: &Token) -> Result<Id, Stop>
    ensures { OnlyMemory result (spec.id_of token.now) }
{
    Ok(Id {
        name: token_name(alloc, token)?,
        at: token.place,
    })
}

/// A word that is not reserved.
#[tactic(auto, unfolding(crate::specs::Names::name))]
pub fn name(alloc: Global, tokens: &mut Reader<'_>) -> Result<Id, Stop>
    ensures { Reads (spec.name.run tokens.old) result tokens.new }
{
    let token = tokens.take(&NAME)?;
    id_of(alloc, token)
}

/// The name of a type, elementary or declared.
#[tactic(auto, unfolding(crate::specs::Names::tname))]
pub fn tname(alloc: Global, tokens: &mut Reader<'_>) -> Result<Id, Stop>
    ensures { Reads (spec.tname.run tokens.old) result tokens.new }
{
    let token = tokens.take(&TYPE_NAME)?;
    id_of(alloc, token)
}

#[tactic(auto, unfolding(crate::specs::Names::next_name))]
fn next_name(alloc: Global, tokens: &mut Reader<'_>, mut list: Items<Id>) -> Result<Items<Id>, Stop>
    ensures { Reads ((spec.next_name list).run tokens.old) result tokens.new }
{
    tokens.take(&COMMA)?;
    let next = name(alloc, tokens)?;
    list.push(next)?;
    Ok(list)
}

#[tactic(auto, using(phrase::proofs::Loops::going_starts, phrase::proofs::Loops::going_on, phrase::proofs::Loops::going_fails, phrase::proofs::Loops::going_stops, phrase::proofs::Loops::going_ends))]
fn names_after(
    alloc: Global,
    tokens: &mut Reader<'_>,
    mut list: Items<Id>,
) -> Result<Items<Id>, Stop>
    ensures { Reads ((many COMMA spec.next_name list).run tokens.old) result tokens.new }
{
    for _turn in 0..tokens.left() {
        if !tokens.sees(&COMMA) {
            return Ok(list);
        }
        list = next_name(alloc, tokens, list)?;
    }
    Ok(list)
}

/// Behind a name, more with commas between.
#[tactic(auto, unfolding(crate::specs::Names::more_names))]
pub fn more_names(alloc: Global, tokens: &mut Reader<'_>, first: Id) -> Result<Items<Id>, Stop>
    ensures { Reads ((spec.more_names first).run tokens.old) result tokens.new }
{
    let mut list = Items::new(alloc);
    list.push(first)?;
    names_after(alloc, tokens, list)
}

/// Names with commas between.
#[tactic(auto, unfolding(crate::specs::Names::names))]
pub fn names(alloc: Global, tokens: &mut Reader<'_>) -> Result<Items<Id>, Stop>
    ensures { Reads (spec.names.run tokens.old) result tokens.new }
{
    let first = name(alloc, tokens)?;
    more_names(alloc, tokens, first)
}
