//! Sources.
ghost use Rattle.std.specs.Prelude.{◌≡◌, ◌<◌};
ghost use Rattle.phrase.specs.Piece.{many};
ghost use Rattle.phrase.specs.Reads.{Reads};
ghost use Rattle.plc_tokens.specs.Sets.{DECLARATION};
ghost use Rattle.decl_parse.specs.Sources as spec;

use crate::configuration::config;
use crate::unit::pou;
use phrase::Stop;
use plc_tokens::reader::Reader;
use plc_tokens::sets::{CONFIGURATION, DECLARATION, END, TYPE};
use plc_tree::tree::Unit;
use sqlite_items::Items;
use std::alloc::Global;
use type_parse::definition::types;

#[tactic(auto, unfolding(crate::specs::Sources::next_types))]
fn next_types(alloc: Global, tokens: &mut Reader<'_>, room: u32, unit: Unit) -> Result<Unit, Stop>
    requires { room < 65 }
    ensures { Reads ((spec.next_types room unit).run tokens.old) result tokens.new }
{
    let types = types(alloc, tokens, unit.types, room)?;
    Ok(Unit {
        types,
        pous: unit.pous,
        configs: unit.configs,
    })
}

#[tactic(auto, unfolding(crate::specs::Sources::next_config))]
fn next_config(
    alloc: Global,
    tokens: &mut Reader<'_>,
    room: u32,
    mut unit: Unit,
) -> Result<Unit, Stop>
    requires { room < 65 }
    ensures { Reads ((spec.next_config room unit).run tokens.old) result tokens.new }
{
    let config = config(alloc, tokens, room)?;
    unit.configs.push(config)?;
    Ok(unit)
}

#[tactic(auto, unfolding(crate::specs::Sources::next_pou))]
fn next_pou(alloc: Global, tokens: &mut Reader<'_>, room: u32, mut unit: Unit) -> Result<Unit, Stop>
    requires { room < 65 }
    ensures { Reads ((spec.next_pou room unit).run tokens.old) result tokens.new }
{
    let pou = pou(alloc, tokens, room)?;
    unit.pous.push(pou)?;
    Ok(unit)
}

#[tactic(auto, unfolding(crate::specs::Sources::next_declaration))]
fn next_declaration(
    alloc: Global,
    tokens: &mut Reader<'_>,
    room: u32,
    unit: Unit,
) -> Result<Unit, Stop>
    requires { room < 65 }
    ensures { Reads ((spec.next_declaration room unit).run tokens.old) result tokens.new }
{
    if tokens.sees(&TYPE) {
        return next_types(alloc, tokens, room, unit);
    }
    if tokens.sees(&CONFIGURATION) {
        return next_config(alloc, tokens, room, unit);
    }
    next_pou(alloc, tokens, room, unit)
}

#[tactic(auto, using(phrase::proofs::Loops::going_starts, phrase::proofs::Loops::going_on, phrase::proofs::Loops::going_fails, phrase::proofs::Loops::going_stops, phrase::proofs::Loops::going_ends))]
fn declarations(alloc: Global, tokens: &mut Reader<'_>, room: u32) -> Result<Unit, Stop>
    requires { room < 65 }
    ensures { Reads ((many DECLARATION (spec.next_declaration room) spec.nothing).run tokens.old) result tokens.new }
{
    let mut unit = Unit {
        types: Items::new(alloc),
        pous: Items::new(alloc),
        configs: Items::new(alloc),
    };
    for _turn in 0..tokens.left() {
        if !tokens.sees(&DECLARATION) {
            return Ok(unit);
        }
        unit = next_declaration(alloc, tokens, room, unit)?;
    }
    Ok(unit)
}

#[tactic(auto, unfolding(crate::specs::Sources::source))]
fn source(alloc: Global, tokens: &mut Reader<'_>, room: u32) -> Result<Unit, Stop>
    requires { room < 65 }
    ensures { Reads ((spec.source room).run tokens.old) result tokens.new }
{
    declarations(alloc, tokens, room)
}

/// A source and the end, where `room` nodes may open in each body and in each initial value.
#[tactic(auto, unfolding(crate::specs::Sources::closed))]
pub fn closed(alloc: Global, tokens: &mut Reader<'_>, room: u32) -> Result<Unit, Stop>
    requires { room < 65 }
    ensures { Reads ((spec.closed room).run tokens.old) result tokens.new }
{
    let unit = source(alloc, tokens, room)?;
    tokens.take(&END)?;
    Ok(unit)
}
