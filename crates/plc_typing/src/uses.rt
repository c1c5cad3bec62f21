//! The least broken use of a source, and the numbers of its declared names.
ghost use Rattle.std.specs.Prelude.{◌≡◌, ◌++◌, OnOk};
ghost use Rattle.std.specs.List.{flat_map};
ghost use Rattle.plc_base.specs.Least.{Meets};
ghost use Rattle.plc_typing.specs.Scope.{type_in, variables};
ghost use Rattle.plc_typing.specs.Uses as spec;
ghost use Rattle.plc_typing.specs.Uses.{Numbered};

use crate::bodies::body;
use crate::names::names;
use crate::numbers::Numbers;
use crate::one_use::{is_interval, is_priority, suits};
use crate::plain::{is_in_int, is_int_or_none};
use crate::scope::{Scope, elem_of_spec, is_built_spec, is_elem};
use plc_base::{Elem, Least, OutOfMemory, Place, Stop};
use plc_tree::tree::{
    Config, Decl, Id, Init, Inst, Pou, PouKind, Resource, Section, SectionKind, Spec, Task,
    TypeDef, Unit,
};
use std::alloc::Global;

// ---- declarations

/// A variable has no address yet.
fn address(decl: &Decl, met: &mut Least)
    ensures { Meets (spec.address_faults decl.now.located decl.now.names) met.old met.new }
{
    if decl.located.is_none() {
        return;
    }
    if let Some(name) = decl.names.as_slice().first() {
        suits(false, name.at, met);
    }
}

fn place_of_spec(what: &Spec) -> Place
    ensures { result ≡ spec.place_of_spec what.now }
{
    match what {
        Spec::Named(id) => id.at,
        Spec::Sub { base, .. } => base.at,
        Spec::Array { at, .. } => *at,
    }
}

/// Whether a variable of this type may start so: BOOL at TRUE, FALSE, 0 or 1, INT at one of its numbers.
fn can_start(elem: Elem, init: &Init) -> bool
    ensures { result ≡ spec.can_start elem init.now }
{
    match init {
        Init::Number { value, want, .. } => {
            if is_elem(Elem::Int, elem) {
                is_int_or_none(*want) && is_in_int(*value)
            } else {
                want.is_none() && (0 <= *value && *value <= 1)
            }
        }
        Init::Truth { .. } => is_elem(Elem::Bool, elem),
        _ => false,
    }
}

fn place_of_init(init: &Init) -> Place
    ensures { result ≡ spec.place_of_init init.now }
{
    match init {
        Init::Number { at, .. }
        | Init::Truth { at, .. }
        | Init::Span { at, .. }
        | Init::Value { at, .. }
        | Init::List { at, .. }
        | Init::Struct { at, .. } => *at,
        Init::Named(id) => id.at,
    }
}

fn init(elem: Elem, init: &Option<Init>, met: &mut Least)
    ensures { Meets (spec.init_faults elem init.now) met.old met.new }
{
    match init {
        None => {}
        Some(init) => suits(can_start(elem, init), place_of_init(init), met),
    }
}

/// The type and the initial value of a declaration.
fn start(decl: &Decl, met: &mut Least)
    ensures { Meets (spec.start_faults decl.now.spec decl.now.init) met.old met.new }
{
    suits(is_built_spec(&decl.spec), place_of_spec(&decl.spec), met);
    init(elem_of_spec(&decl.spec), &decl.init, met);
}

fn decl(decl: &Decl, met: &mut Least)
    ensures { Meets (spec.decl_faults decl.now) met.old met.new }
{
    address(decl, met);
    start(decl, met);
}

fn decls(decls: &[Decl], met: &mut Least)
    ensures { Meets (flat_map spec.decl_faults decls.now) met.old met.new }
{
    for d in decls {
        decl(d, met);
    }
}

fn is_own(kind: SectionKind) -> bool
    ensures { result ≡ spec.is_own kind }
{
    match kind {
        SectionKind::Own => true,
        _ => false,
    }
}

/// Whether a section is VAR without CONSTANT, RETAIN and NON_RETAIN.
fn is_plain_section(section: &Section) -> bool
    ensures { result ≡ spec.is_plain_section section.now }
{
    is_own(section.kind) && section.mark.token == section.at.token
}

fn section(section: &Section, met: &mut Least)
    ensures { Meets (spec.section_faults section.now) met.old met.new }
{
    suits(is_plain_section(section), section.at, met);
    decls(section.decls.as_slice(), met);
}

fn sections(sections: &[Section], met: &mut Least)
    ensures { Meets (flat_map spec.section_faults sections.now) met.old met.new }
{
    for s in sections {
        section(s, met);
    }
}

fn is_prog(kind: PouKind) -> bool
    ensures { result ≡ spec.is_prog kind }
{
    match kind {
        PouKind::Prog => true,
        PouKind::Func | PouKind::Block => false,
    }
}

/// What stands in a program organisation unit.
fn inside(alloc: Global, pou: &Pou, met: &mut Least) -> Result<(), OutOfMemory>
    ensures { OnOk result (Meets (flat_map spec.section_faults pou.now.sections ++ spec.body_faults (type_in (variables pou.now.sections)) pou.now.body) met.old met.new) }
{
    sections(pou.sections.as_slice(), met);
    let scope = Scope::of(alloc, pou.sections.as_slice())?;
    body(alloc, &scope, &pou.body, met)
}

fn pou(alloc: Global, pou: &Pou, met: &mut Least) -> Result<(), OutOfMemory>
    ensures { OnOk result (Meets (spec.pou_faults pou.now) met.old met.new) }
{
    suits(is_prog(pou.kind), pou.at, met);
    inside(alloc, pou, met)
}

/// There is one program.
fn pous(alloc: Global, pous: &[Pou], end: Place, met: &mut Least) -> Result<(), OutOfMemory>
    ensures { OnOk result (Meets (spec.sole_faults (λ p. p.at) spec.pou_faults end pous.now) met.old met.new) }
{
    match pous {
        [] => suits(false, end, met),
        [only] => pou(alloc, only, met)?,
        [first, second, ..] => {
            pou(alloc, first, met)?;
            suits(false, second.at, met);
        }
    }
    Ok(())
}

// ---- configurations

fn task(task: &Task, met: &mut Least)
    ensures { Meets (spec.task_faults task.now) met.old met.new }
{
    suits(is_interval(task.interval), task.interval_at, met);
    suits(is_priority(task.priority.value), task.priority.at, met);
}

/// A resource has one task.
fn tasks(tasks: &[Task], resource: Place, met: &mut Least)
    ensures { Meets (spec.sole_faults (λ t. t.at) spec.task_faults resource tasks.now) met.old met.new }
{
    match tasks {
        [] => suits(false, resource, met),
        [only] => task(only, met),
        [first, second, ..] => {
            task(first, met);
            suits(false, second.at, met);
        }
    }
}

fn is_task(tasks: &[Task], name: &[u8]) -> bool
    ensures { result ≡ spec.is_task tasks.now name.now }
{
    tasks.iter().any(|task| name == task.name.bytes())
}

/// Whether a program of the name stands before this place.
fn is_program(pous: &[Pou], before: Place, name: &[u8]) -> bool
    ensures { result ≡ spec.is_program pous.now before name.now }
{
    pous.iter().any(|pou| name == pou.name.bytes() && pou.at.token < before.token)
}

/// An instance has a task, and the name after WITH is that of one of the resource.
fn reference(tasks: &[Task], inst: Place, name: &Option<Id>, met: &mut Least)
    ensures { Meets (spec.reference_faults tasks.now inst name.now) met.old met.new }
{
    match name {
        None => suits(false, inst, met),
        Some(id) => suits(is_task(tasks, id.name.bytes()), id.at, met),
    }
}

fn inst(pous: &[Pou], config: Place, tasks: &[Task], inst: &Inst, met: &mut Least)
    ensures { Meets (spec.inst_faults pous.now config tasks.now inst.now) met.old met.new }
{
    reference(tasks, inst.at, &inst.task, met);
    let program = &inst.program;
    let known = is_program(pous, config, program.name.bytes());
    suits(known, program.at, met);
}

/// A resource has one instance.
fn insts(pous: &[Pou], config: Place, resource: &Resource, met: &mut Least)
    ensures { Meets (spec.sole_faults (λ i. i.at) (spec.inst_faults pous.now config resource.now.tasks) resource.now.at resource.now.insts) met.old met.new }
{
    let tasks = resource.tasks.as_slice();
    match resource.insts.as_slice() {
        [] => suits(false, resource.at, met),
        [only] => inst(pous, config, tasks, only, met),
        [first, second, ..] => {
            inst(pous, config, tasks, first, met);
            suits(false, second.at, met);
        }
    }
}

/// No global variable is built.
fn globals(sections: &[Section], met: &mut Least)
    ensures { Meets (spec.unbuilt_faults (λ s. s.at) sections.now) met.old met.new }
{
    if let [first, ..] = sections {
        suits(false, first.at, met);
    }
}

fn resource(pous: &[Pou], config: Place, resource: &Resource, met: &mut Least)
    ensures { Meets (spec.resource_faults pous.now config resource.now) met.old met.new }
{
    globals(resource.globals.as_slice(), met);
    tasks(resource.tasks.as_slice(), resource.at, met);
    insts(pous, config, resource, met);
}

/// A configuration has one resource.
fn resources(pous: &[Pou], config: &Config, met: &mut Least)
    ensures { Meets (spec.sole_faults (λ r. r.at) (spec.resource_faults pous.now config.now.at) config.now.at config.now.resources) met.old met.new }
{
    match config.resources.as_slice() {
        [] => suits(false, config.at, met),
        [only] => resource(pous, config.at, only, met),
        [first, second, ..] => {
            resource(pous, config.at, first, met);
            suits(false, second.at, met);
        }
    }
}

fn config(pous: &[Pou], config: &Config, met: &mut Least)
    ensures { Meets (spec.config_faults pous.now config.now) met.old met.new }
{
    globals(config.globals.as_slice(), met);
    resources(pous, config, met);
}

/// There is one configuration.
fn configs(pous: &[Pou], configs: &[Config], end: Place, met: &mut Least)
    ensures { Meets (spec.sole_faults (λ c. c.at) (spec.config_faults pous.now) end configs.now) met.old met.new }
{
    match configs {
        [] => suits(false, end, met),
        [only] => config(pous, only, met),
        [first, second, ..] => {
            config(pous, first, met);
            suits(false, second.at, met);
        }
    }
}

/// No type is built.
fn types(types: &[TypeDef], met: &mut Least)
    ensures { Meets (spec.unbuilt_faults (λ t. t.at) types.now) met.old met.new }
{
    if let [first, ..] = types {
        suits(false, first.at, met);
    }
}

/// All uses but those that declare a name.
fn others(alloc: Global, unit: &Unit, end: Place, met: &mut Least) -> Result<(), OutOfMemory>
    ensures { OnOk result (Meets (spec.other_faults end unit.now) met.old met.new) }
{
    types(unit.types.as_slice(), met);
    pous(alloc, unit.pous.as_slice(), end, met)?;
    configs(unit.pous.as_slice(), unit.configs.as_slice(), end, met);
    Ok(())
}

/// The numbers of all declared names, where no use is broken. `end` is where the source ends: there it is refused
/// where it has no program or no configuration.
pub fn numbers_of(alloc: Global, unit: &Unit, end: Place) -> Result<Numbers, Stop>
    ensures { Numbered end unit.now result }
{
    let mut numbers = Numbers::new(alloc);
    let mut met = Least::new();
    names(alloc, unit, &mut numbers, &mut met)?;
    others(alloc, unit, end, &mut met)?;
    met.judge()?;
    Ok(numbers)
}
