//! Declarations of types.
ghost use Rattle.phrase.specs.Piece.{many};
ghost use Rattle.phrase.specs.Reads.{Reads};
ghost use Rattle.plc_tokens.specs.Sets.{NAME};
ghost use Rattle.type_parse.specs.Types as spec;

use crate::initial::init_if_any;
use crate::name::{name, names};
use crate::spec::spec;
use phrase::Stop;
use plc_tokens::reader::Reader;
use plc_tokens::sets::{
    ASSIGN, COLON, END_STRUCT, END_TYPE, LPAREN, NAME, RPAREN, SEMI, STRUCT, TYPE,
};
use plc_tree::tree::{Id, Member, TypeDef, TypeWhat};
use sqlite_items::Items;
use std::alloc::Global;

#[tactic(auto, unfolding(crate::specs::Types::default))]
fn default(alloc: Global, tokens: &mut Reader<'_>) -> Result<Option<Id>, Stop>
    ensures { Reads (spec.default.run tokens.old) result tokens.new }
{
    tokens.take(&ASSIGN)?;
    let value = name(alloc, tokens)?;
    Ok(Some(value))
}

#[tactic(auto, unfolding(crate::specs::Types::default_if_any))]
fn default_if_any(alloc: Global, tokens: &mut Reader<'_>) -> Result<Option<Id>, Stop>
    ensures { Reads (spec.default_if_any.run tokens.old) result tokens.new }
{
    if tokens.sees(&ASSIGN) {
        default(alloc, tokens)
    } else {
        Ok(None)
    }
}

#[tactic(auto, unfolding(crate::specs::Types::enumeration))]
fn enumeration(alloc: Global, tokens: &mut Reader<'_>) -> Result<TypeWhat, Stop>
    ensures { Reads (spec.enumeration.run tokens.old) result tokens.new }
{
    tokens.take(&LPAREN)?;
    let values = names(alloc, tokens)?;
    tokens.take(&RPAREN)?;
    let init = default_if_any(alloc, tokens)?;
    Ok(TypeWhat::Enum { values, init })
}

#[tactic(auto, unfolding(crate::specs::Types::field))]
fn field(alloc: Global, tokens: &mut Reader<'_>, room: u32) -> Result<Member, Stop>
    ensures { Reads ((spec.field room).run tokens.old) result tokens.new }
{
    let Id { name, at } = name(alloc, tokens)?;
    tokens.take(&COLON)?;
    let spec = spec(alloc, tokens)?;
    let init = init_if_any(alloc, tokens, room)?;
    tokens.take(&SEMI)?;
    Ok(Member {
        name,
        at,
        spec,
        init,
    })
}

#[tactic(auto, unfolding(crate::specs::Types::next_field))]
fn next_field(
    alloc: Global,
    tokens: &mut Reader<'_>,
    mut list: Items<Member>,
    room: u32,
) -> Result<Items<Member>, Stop>
    ensures { Reads ((spec.next_field room list).run tokens.old) result tokens.new }
{
    let next = field(alloc, tokens, room)?;
    list.push(next)?;
    Ok(list)
}

#[tactic(auto, using(phrase::proofs::Loops::going_starts, phrase::proofs::Loops::going_on, phrase::proofs::Loops::going_fails, phrase::proofs::Loops::going_stops, phrase::proofs::Loops::going_ends))]
fn more_fields(
    alloc: Global,
    tokens: &mut Reader<'_>,
    mut list: Items<Member>,
    room: u32,
) -> Result<Items<Member>, Stop>
    ensures { Reads ((many NAME (spec.next_field room) list).run tokens.old) result tokens.new }
{
    for _turn in 0..tokens.left() {
        if !tokens.sees(&NAME) {
            return Ok(list);
        }
        list = next_field(alloc, tokens, list, room)?;
    }
    Ok(list)
}

#[tactic(auto, unfolding(crate::specs::Types::structure))]
fn structure(alloc: Global, tokens: &mut Reader<'_>, room: u32) -> Result<TypeWhat, Stop>
    ensures { Reads ((spec.structure room).run tokens.old) result tokens.new }
{
    tokens.take(&STRUCT)?;
    let first = field(alloc, tokens, room)?;
    let mut members = Items::new(alloc);
    members.push(first)?;
    let members = more_fields(alloc, tokens, members, room)?;
    tokens.take(&END_STRUCT)?;
    Ok(TypeWhat::Struct(members))
}

#[tactic(auto, unfolding(crate::specs::Types::renamed))]
fn renamed(alloc: Global, tokens: &mut Reader<'_>, room: u32) -> Result<TypeWhat, Stop>
    ensures { Reads ((spec.renamed room).run tokens.old) result tokens.new }
{
    let spec = spec(alloc, tokens)?;
    let init = init_if_any(alloc, tokens, room)?;
    Ok(TypeWhat::Spec { spec, init })
}

#[tactic(auto, unfolding(crate::specs::Types::meaning))]
fn meaning(alloc: Global, tokens: &mut Reader<'_>, room: u32) -> Result<TypeWhat, Stop>
    ensures { Reads ((spec.meaning room).run tokens.old) result tokens.new }
{
    if tokens.sees(&LPAREN) {
        return enumeration(alloc, tokens);
    }
    if tokens.sees(&STRUCT) {
        return structure(alloc, tokens, room);
    }
    renamed(alloc, tokens, room)
}

#[tactic(auto, unfolding(crate::specs::Types::definition))]
fn definition(alloc: Global, tokens: &mut Reader<'_>, room: u32) -> Result<TypeDef, Stop>
    ensures { Reads ((spec.definition room).run tokens.old) result tokens.new }
{
    let Id { name, at } = name(alloc, tokens)?;
    tokens.take(&COLON)?;
    let what = meaning(alloc, tokens, room)?;
    Ok(TypeDef { name, at, what })
}

#[tactic(auto, unfolding(crate::specs::Types::next_definition))]
fn next_definition(
    alloc: Global,
    tokens: &mut Reader<'_>,
    mut list: Items<TypeDef>,
    room: u32,
) -> Result<Items<TypeDef>, Stop>
    ensures { Reads ((spec.next_definition room list).run tokens.old) result tokens.new }
{
    let next = definition(alloc, tokens, room)?;
    tokens.take(&SEMI)?;
    list.push(next)?;
    Ok(list)
}

#[tactic(auto, using(phrase::proofs::Loops::going_starts, phrase::proofs::Loops::going_on, phrase::proofs::Loops::going_fails, phrase::proofs::Loops::going_stops, phrase::proofs::Loops::going_ends))]
fn more_definitions(
    alloc: Global,
    tokens: &mut Reader<'_>,
    mut list: Items<TypeDef>,
    room: u32,
) -> Result<Items<TypeDef>, Stop>
    ensures { Reads ((many NAME (spec.next_definition room) list).run tokens.old) result tokens.new }
{
    for _turn in 0..tokens.left() {
        if !tokens.sees(&NAME) {
            return Ok(list);
        }
        list = next_definition(alloc, tokens, list, room)?;
    }
    Ok(list)
}

/// TYPE and END_TYPE with declarations between, one at least, behind others.
#[tactic(auto, unfolding(crate::specs::Types::types))]
pub fn types(
    alloc: Global,
    tokens: &mut Reader<'_>,
    list: Items<TypeDef>,
    room: u32,
) -> Result<Items<TypeDef>, Stop>
    ensures { Reads ((spec.types room list).run tokens.old) result tokens.new }
{
    tokens.take(&TYPE)?;
    let list = next_definition(alloc, tokens, list, room)?;
    let list = more_definitions(alloc, tokens, list, room)?;
    tokens.take(&END_TYPE)?;
    Ok(list)
}
