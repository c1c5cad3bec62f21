//! Configurations: their global variables, resources, tasks and instances of programs.
ghost use Rattle.std.specs.Prelude.{◌≡◌, ◌<◌, []};
ghost use Rattle.std.specs.Result.{result_map_both};
ghost use Rattle.phrase.specs.Piece.{many};
ghost use Rattle.phrase.specs.Reads.{Reads};
ghost use Rattle.plc_tokens.specs.Sets.{PROGRAM, RESOURCE, TASK, VAR_GLOBAL};
ghost use Rattle.st_expr.specs.Integers.{whole_of};
ghost use Rattle.decl_parse.specs.Configurations as spec;
ghost use Rattle.decl_parse.specs.Sections.{next_globals};

use crate::section::next_globals;
use phrase::Stop;
use plc_tokens::Token;
use plc_tokens::reader::Reader;
use plc_tokens::sets::{
    ASSIGN, COLON, COMMA, CONFIGURATION, END_CONFIGURATION, END_RESOURCE, INTEGER, INTERVAL,
    LPAREN, ON, PRIORITY, PROGRAM, RESOURCE, RPAREN, SEMI, SPAN, TASK, VAR_GLOBAL, WITH,
};
use plc_tokens::token::{number_of, span_of};
use plc_tree::tree::{Config, Id, Inst, Resource, Section, Task, Whole};
use sqlite_items::Items;
use std::alloc::Global;
use type_parse::name::name;

// ---- tasks

#[tactic(auto, unfolding(crate::specs::Configurations::interval))]
fn interval<'a>(tokens: &mut Reader<'a>) -> Result<&'a Token, Stop>
    ensures { Reads (spec.interval.run tokens.old) (result_map_both (λ t. t.now) (λ e. e) result) tokens.new }
{
    tokens.take(&INTERVAL)?;
    tokens.take(&ASSIGN)?;
    tokens.take(&SPAN)
}

#[tactic(auto, unfolding(crate::specs::Configurations::priority))]
fn priority<'a>(tokens: &mut Reader<'a>) -> Result<&'a Token, Stop>
    ensures { Reads (spec.priority.run tokens.old) (result_map_both (λ t. t.now) (λ e. e) result) tokens.new }
{
    tokens.take(&PRIORITY)?;
    tokens.take(&ASSIGN)?;
    tokens.take(&INTEGER)
}

fn whole_of(token: &Token) -> Whole
    ensures { result ≡ whole_of token.now }
{
    Whole {
        value: number_of(&token.kind),
        at: token.place,
    }
}

#[tactic(auto, unfolding(crate::specs::Configurations::task))]
fn task(alloc: Global, tokens: &mut Reader<'_>) -> Result<Task, Stop>
    ensures { Reads (spec.task.run tokens.old) result tokens.new }
{
    tokens.take(&TASK)?;
    let id = name(alloc, tokens)?;
    tokens.take(&LPAREN)?;
    let interval = interval(tokens)?;
    tokens.take(&COMMA)?;
    let priority = priority(tokens)?;
    tokens.take(&RPAREN)?;
    tokens.take(&SEMI)?;
    Ok(Task {
        name: id.name,
        at: id.at,
        interval: span_of(&interval.kind),
        interval_at: interval.place,
        priority: whole_of(priority),
    })
}

#[tactic(auto, unfolding(crate::specs::Configurations::next_task))]
fn next_task(
    alloc: Global,
    tokens: &mut Reader<'_>,
    mut tasks: Items<Task>,
) -> Result<Items<Task>, Stop>
    ensures { Reads ((spec.next_task tasks).run tokens.old) result tokens.new }
{
    let task = task(alloc, tokens)?;
    tasks.push(task)?;
    Ok(tasks)
}

#[tactic(auto, using(phrase::proofs::Loops::going_starts, phrase::proofs::Loops::going_on, phrase::proofs::Loops::going_fails, phrase::proofs::Loops::going_stops, phrase::proofs::Loops::going_ends))]
fn tasks(alloc: Global, tokens: &mut Reader<'_>) -> Result<Items<Task>, Stop>
    ensures { Reads ((many TASK spec.next_task []).run tokens.old) result tokens.new }
{
    let mut tasks = Items::new(alloc);
    for _turn in 0..tokens.left() {
        if !tokens.sees(&TASK) {
            return Ok(tasks);
        }
        tasks = next_task(alloc, tokens, tasks)?;
    }
    Ok(tasks)
}

// ---- instances

#[tactic(auto, unfolding(crate::specs::Configurations::with))]
fn with(alloc: Global, tokens: &mut Reader<'_>) -> Result<Option<Id>, Stop>
    ensures { Reads (spec.with.run tokens.old) result tokens.new }
{
    tokens.take(&WITH)?;
    let task = name(alloc, tokens)?;
    Ok(Some(task))
}

#[tactic(auto, unfolding(crate::specs::Configurations::with_if_any))]
fn with_if_any(alloc: Global, tokens: &mut Reader<'_>) -> Result<Option<Id>, Stop>
    ensures { Reads (spec.with_if_any.run tokens.old) result tokens.new }
{
    if tokens.sees(&WITH) {
        with(alloc, tokens)
    } else {
        Ok(None)
    }
}

#[tactic(auto, unfolding(crate::specs::Configurations::inst))]
fn inst(alloc: Global, tokens: &mut Reader<'_>) -> Result<Inst, Stop>
    ensures { Reads (spec.inst.run tokens.old) result tokens.new }
{
    tokens.take(&PROGRAM)?;
    let id = name(alloc, tokens)?;
    let task = with_if_any(alloc, tokens)?;
    tokens.take(&COLON)?;
    let program = name(alloc, tokens)?;
    tokens.take(&SEMI)?;
    Ok(Inst {
        name: id.name,
        at: id.at,
        task,
        program,
    })
}

#[tactic(auto, unfolding(crate::specs::Configurations::next_inst))]
fn next_inst(
    alloc: Global,
    tokens: &mut Reader<'_>,
    mut insts: Items<Inst>,
) -> Result<Items<Inst>, Stop>
    ensures { Reads ((spec.next_inst insts).run tokens.old) result tokens.new }
{
    let inst = inst(alloc, tokens)?;
    insts.push(inst)?;
    Ok(insts)
}

#[tactic(auto, using(phrase::proofs::Loops::going_starts, phrase::proofs::Loops::going_on, phrase::proofs::Loops::going_fails, phrase::proofs::Loops::going_stops, phrase::proofs::Loops::going_ends))]
fn more_insts(
    alloc: Global,
    tokens: &mut Reader<'_>,
    mut insts: Items<Inst>,
) -> Result<Items<Inst>, Stop>
    ensures { Reads ((many PROGRAM spec.next_inst insts).run tokens.old) result tokens.new }
{
    for _turn in 0..tokens.left() {
        if !tokens.sees(&PROGRAM) {
            return Ok(insts);
        }
        insts = next_inst(alloc, tokens, insts)?;
    }
    Ok(insts)
}

// ---- resources

#[tactic(auto, using(phrase::proofs::Loops::going_starts, phrase::proofs::Loops::going_on, phrase::proofs::Loops::going_fails, phrase::proofs::Loops::going_stops, phrase::proofs::Loops::going_ends))]
fn globals(alloc: Global, tokens: &mut Reader<'_>, room: u32) -> Result<Items<Section>, Stop>
    requires { room < 65 }
    ensures { Reads ((many VAR_GLOBAL (next_globals room) []).run tokens.old) result tokens.new }
{
    let mut sections = Items::new(alloc);
    for _turn in 0..tokens.left() {
        if !tokens.sees(&VAR_GLOBAL) {
            return Ok(sections);
        }
        sections = next_globals(alloc, tokens, room, sections)?;
    }
    Ok(sections)
}

#[tactic(auto, unfolding(crate::specs::Configurations::resource))]
fn resource(alloc: Global, tokens: &mut Reader<'_>, room: u32) -> Result<Resource, Stop>
    requires { room < 65 }
    ensures { Reads ((spec.resource room).run tokens.old) result tokens.new }
{
    tokens.take(&RESOURCE)?;
    let id = name(alloc, tokens)?;
    tokens.take(&ON)?;
    let on = name(alloc, tokens)?;
    let globals = globals(alloc, tokens, room)?;
    let tasks = tasks(alloc, tokens)?;
    let first = inst(alloc, tokens)?;
    let mut insts = Items::new(alloc);
    insts.push(first)?;
    let insts = more_insts(alloc, tokens, insts)?;
    tokens.take(&END_RESOURCE)?;
    Ok(Resource {
        name: id.name,
        at: id.at,
        on,
        globals,
        tasks,
        insts,
    })
}

#[tactic(auto, unfolding(crate::specs::Configurations::next_resource))]
fn next_resource(
    alloc: Global,
    tokens: &mut Reader<'_>,
    room: u32,
    mut resources: Items<Resource>,
) -> Result<Items<Resource>, Stop>
    requires { room < 65 }
    ensures { Reads ((spec.next_resource room resources).run tokens.old) result tokens.new }
{
    let resource = resource(alloc, tokens, room)?;
    resources.push(resource)?;
    Ok(resources)
}

#[tactic(auto, using(phrase::proofs::Loops::going_starts, phrase::proofs::Loops::going_on, phrase::proofs::Loops::going_fails, phrase::proofs::Loops::going_stops, phrase::proofs::Loops::going_ends))]
fn more_resources(
    alloc: Global,
    tokens: &mut Reader<'_>,
    room: u32,
    mut resources: Items<Resource>,
) -> Result<Items<Resource>, Stop>
    requires { room < 65 }
    ensures { Reads ((many RESOURCE (spec.next_resource room) resources).run tokens.old) result tokens.new }
{
    for _turn in 0..tokens.left() {
        if !tokens.sees(&RESOURCE) {
            return Ok(resources);
        }
        resources = next_resource(alloc, tokens, room, resources)?;
    }
    Ok(resources)
}

// ---- configurations

/// A configuration, where `room` nodes may open in each initial value.
#[tactic(auto, unfolding(crate::specs::Configurations::config))]
pub fn config(alloc: Global, tokens: &mut Reader<'_>, room: u32) -> Result<Config, Stop>
    requires { room < 65 }
    ensures { Reads ((spec.config room).run tokens.old) result tokens.new }
{
    tokens.take(&CONFIGURATION)?;
    let id = name(alloc, tokens)?;
    let globals = globals(alloc, tokens, room)?;
    let first = resource(alloc, tokens, room)?;
    let mut resources = Items::new(alloc);
    resources.push(first)?;
    let resources = more_resources(alloc, tokens, room, resources)?;
    tokens.take(&END_CONFIGURATION)?;
    Ok(Config {
        name: id.name,
        at: id.at,
        globals,
        resources,
    })
}
