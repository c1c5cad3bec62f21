//! Program organisation units: functions, function blocks and programs.
ghost use Rattle.std.specs.Prelude.{◌≡◌, ◌<◌, []};
ghost use Rattle.phrase.specs.Piece.{many};
ghost use Rattle.phrase.specs.Reads.{Reads};
ghost use Rattle.plc_tokens.specs.Sets.{FUNCTION_SECTION, UNIT_SECTION};
ghost use Rattle.decl_parse.specs.Sections.{next_block_section, next_function_section, next_program_section};
ghost use Rattle.decl_parse.specs.Units as spec;

use crate::section::{next_block_section, next_function_section, next_program_section};
use phrase::Stop;
use plc_tokens::reader::Reader;
use plc_tokens::sets::{
    COLON, END_FUNCTION, END_FUNCTION_BLOCK, END_PROGRAM, FUNCTION, FUNCTION_BLOCK,
    FUNCTION_SECTION, PROGRAM, UNIT_SECTION,
};
use plc_tree::tree::{Body, Pou, PouKind, Section};
use sqlite_items::Items;
use st_parse::statement::stmts;
use std::alloc::Global;
use type_parse::name::{name, tname};

#[tactic(auto, using(phrase::proofs::Loops::going_starts, phrase::proofs::Loops::going_on, phrase::proofs::Loops::going_fails, phrase::proofs::Loops::going_stops, phrase::proofs::Loops::going_ends))]
fn function_sections(
    alloc: Global,
    tokens: &mut Reader<'_>,
    room: u32,
) -> Result<Items<Section>, Stop>
    requires { room < 65 }
    ensures { Reads ((many FUNCTION_SECTION (next_function_section room) []).run tokens.old) result tokens.new }
{
    let mut sections = Items::new(alloc);
    for _turn in 0..tokens.left() {
        if !tokens.sees(&FUNCTION_SECTION) {
            return Ok(sections);
        }
        sections = next_function_section(alloc, tokens, room, sections)?;
    }
    Ok(sections)
}

#[tactic(auto, using(phrase::proofs::Loops::going_starts, phrase::proofs::Loops::going_on, phrase::proofs::Loops::going_fails, phrase::proofs::Loops::going_stops, phrase::proofs::Loops::going_ends))]
fn block_sections(alloc: Global, tokens: &mut Reader<'_>, room: u32) -> Result<Items<Section>, Stop>
    requires { room < 65 }
    ensures { Reads ((many UNIT_SECTION (next_block_section room) []).run tokens.old) result tokens.new }
{
    let mut sections = Items::new(alloc);
    for _turn in 0..tokens.left() {
        if !tokens.sees(&UNIT_SECTION) {
            return Ok(sections);
        }
        sections = next_block_section(alloc, tokens, room, sections)?;
    }
    Ok(sections)
}

#[tactic(auto, using(phrase::proofs::Loops::going_starts, phrase::proofs::Loops::going_on, phrase::proofs::Loops::going_fails, phrase::proofs::Loops::going_stops, phrase::proofs::Loops::going_ends))]
fn program_sections(
    alloc: Global,
    tokens: &mut Reader<'_>,
    room: u32,
) -> Result<Items<Section>, Stop>
    requires { room < 65 }
    ensures { Reads ((many UNIT_SECTION (next_program_section room) []).run tokens.old) result tokens.new }
{
    let mut sections = Items::new(alloc);
    for _turn in 0..tokens.left() {
        if !tokens.sees(&UNIT_SECTION) {
            return Ok(sections);
        }
        sections = next_program_section(alloc, tokens, room, sections)?;
    }
    Ok(sections)
}

#[tactic(auto, unfolding(crate::specs::Units::body))]
fn body(alloc: Global, tokens: &mut Reader<'_>, room: u32) -> Result<Body, Stop>
    requires { room < 65 }
    ensures { Reads ((spec.body room).run tokens.old) result tokens.new }
{
    let stmts = stmts(alloc, tokens, room + 1)?;
    Ok(Body::St(stmts))
}

#[tactic(auto, unfolding(crate::specs::Units::function))]
fn function(alloc: Global, tokens: &mut Reader<'_>, room: u32) -> Result<Pou, Stop>
    requires { room < 65 }
    ensures { Reads ((spec.function room).run tokens.old) result tokens.new }
{
    tokens.take(&FUNCTION)?;
    let id = name(alloc, tokens)?;
    tokens.take(&COLON)?;
    let result = tname(alloc, tokens)?;
    let sections = function_sections(alloc, tokens, room)?;
    let body = body(alloc, tokens, room)?;
    tokens.take(&END_FUNCTION)?;
    Ok(Pou {
        kind: PouKind::Func,
        name: id.name,
        at: id.at,
        result: Some(result),
        sections,
        body,
    })
}

#[tactic(auto, unfolding(crate::specs::Units::block))]
fn block(alloc: Global, tokens: &mut Reader<'_>, room: u32) -> Result<Pou, Stop>
    requires { room < 65 }
    ensures { Reads ((spec.block room).run tokens.old) result tokens.new }
{
    tokens.take(&FUNCTION_BLOCK)?;
    let id = name(alloc, tokens)?;
    let sections = block_sections(alloc, tokens, room)?;
    let body = body(alloc, tokens, room)?;
    tokens.take(&END_FUNCTION_BLOCK)?;
    Ok(Pou {
        kind: PouKind::Block,
        name: id.name,
        at: id.at,
        result: None,
        sections,
        body,
    })
}

#[tactic(auto, unfolding(crate::specs::Units::program))]
fn program(alloc: Global, tokens: &mut Reader<'_>, room: u32) -> Result<Pou, Stop>
    requires { room < 65 }
    ensures { Reads ((spec.program room).run tokens.old) result tokens.new }
{
    tokens.take(&PROGRAM)?;
    let id = name(alloc, tokens)?;
    let sections = program_sections(alloc, tokens, room)?;
    let body = body(alloc, tokens, room)?;
    tokens.take(&END_PROGRAM)?;
    Ok(Pou {
        kind: PouKind::Prog,
        name: id.name,
        at: id.at,
        result: None,
        sections,
        body,
    })
}

/// A function, a function block or a program, where `room` nodes may open in its body and in each initial value.
#[tactic(auto, unfolding(crate::specs::Units::pou))]
pub fn pou(alloc: Global, tokens: &mut Reader<'_>, room: u32) -> Result<Pou, Stop>
    requires { room < 65 }
    ensures { Reads ((spec.pou room).run tokens.old) result tokens.new }
{
    if tokens.sees(&FUNCTION) {
        return function(alloc, tokens, room);
    }
    if tokens.sees(&FUNCTION_BLOCK) {
        return block(alloc, tokens, room);
    }
    program(alloc, tokens, room)
}
