//! The typed unit of a source without broken uses.
ghost use Rattle.std.specs.Prelude.{◌≡◌, ◌<◌, ◌^◌, IfOk, map, length};
ghost use Rattle.std.specs.List.{flat_map};
ghost use Rattle.std.specs.Option.{option_map};
ghost use Rattle.plc_typing.specs.Typing as spec;

use crate::numbers::Numbers;
use crate::scope::{Scope, elem_of_spec};
use crate::typed_body::typed_body;
use plc_base::{Name, OutOfMemory};
use plc_tree::tree::{Config, Decl, Id, Init, Inst, Pou, Resource, Section, Spec, Task, Unit};
use plc_tree::typed::{TConfig, TInst, TPou, TResource, TTask, TUnit, TVar, TypeId};
use sqlite_items::Items;
use std::alloc::Global;

fn copied(alloc: Global, name: &Name) -> Result<Name, OutOfMemory>
    ensures { IfOk result (λ copy. copy ≡ name.now) }
{
    Name::new(alloc, name.bytes())
}

/// The number that a variable starts at, 0 where none is written or it isn't built.
fn number_of_init(init: &Option<Init>) -> i128
    ensures { result ≡ spec.number_of_init init.now }
{
    match init {
        Some(Init::Number { value, .. }) => *value,
        Some(Init::Truth { value, .. }) => i128::from(*value),
        Some(Init::Span { ns, .. }) => i128::from(*ns),
        _ => 0,
    }
}

fn type_of(what: &Spec) -> TypeId
    ensures { result ≡ spec.type_of what.now }
{
    TypeId::Elem(elem_of_spec(what))
}

fn typed_var(
    alloc: Global,
    numbers: &Numbers,
    section: &Section,
    decl: &Decl,
    id: &Id,
) -> Result<TVar, OutOfMemory>
    requires { length numbers.now < 2 ^ 32 }
    ensures { IfOk result (λ var. var ≡ spec.typed_var numbers.now section.now decl.now id.now) }
{
    Ok(TVar {
        id: numbers.of(alloc, &id.name)?,
        kind: section.kind,
        constant: section.constant,
        keep: section.keep,
        name: copied(alloc, &id.name)?,
        ty: type_of(&decl.spec),
        init: number_of_init(&decl.init),
    })
}

fn typed_decl(
    alloc: Global,
    numbers: &Numbers,
    section: &Section,
    decl: &Decl,
) -> Result<Items<TVar>, OutOfMemory>
    requires { length numbers.now < 2 ^ 32 }
    ensures { IfOk result (λ vars. vars ≡ spec.typed_decl numbers.now section.now decl.now) }
{
    let mut vars = Items::new(alloc);
    for id in decl.names.as_slice() {
        vars.push(typed_var(alloc, numbers, section, decl, id)?)?;
    }
    Ok(vars)
}

fn typed_section(
    alloc: Global,
    numbers: &Numbers,
    section: &Section,
) -> Result<Items<TVar>, OutOfMemory>
    requires { length numbers.now < 2 ^ 32 }
    ensures { IfOk result (λ vars. vars ≡ spec.typed_section numbers.now section.now) }
{
    let mut vars = Items::new(alloc);
    for decl in section.decls.as_slice() {
        vars.append(typed_decl(alloc, numbers, section, decl)?)?;
    }
    Ok(vars)
}

fn typed_sections(
    alloc: Global,
    numbers: &Numbers,
    sections: &[Section],
) -> Result<Items<TVar>, OutOfMemory>
    requires { length numbers.now < 2 ^ 32 }
    ensures { IfOk result (λ vars. vars ≡ flat_map (spec.typed_section numbers.now) sections.now) }
{
    let mut vars = Items::new(alloc);
    for section in sections {
        vars.append(typed_section(alloc, numbers, section)?)?;
    }
    Ok(vars)
}

// ---- declarations

fn typed_pou(alloc: Global, numbers: &Numbers, pou: &Pou) -> Result<TPou, OutOfMemory>
    requires { length numbers.now < 2 ^ 32 }
    ensures { IfOk result (λ p. p ≡ spec.typed_pou numbers.now pou.now) }
{
    let scope = Scope::of(alloc, pou.sections.as_slice())?;
    Ok(TPou {
        id: numbers.of(alloc, &pou.name)?,
        kind: pou.kind,
        name: copied(alloc, &pou.name)?,
        vars: typed_sections(alloc, numbers, pou.sections.as_slice())?,
        body: typed_body(alloc, numbers, &scope, &pou.body)?,
    })
}

fn typed_pous(alloc: Global, numbers: &Numbers, pous: &[Pou]) -> Result<Items<TPou>, OutOfMemory>
    requires { length numbers.now < 2 ^ 32 }
    ensures { IfOk result (λ ps. ps ≡ map (spec.typed_pou numbers.now) pous.now) }
{
    let mut items = Items::new(alloc);
    for pou in pous {
        items.push(typed_pou(alloc, numbers, pou)?)?;
    }
    Ok(items)
}

/// A priority is 0 to 65535.
fn priority_of(value: i128) -> u32
    ensures { result ≡ spec.priority_of value }
{
    if 0 <= value && value <= 65535 {
        value as u32
    } else {
        0
    }
}

fn typed_task(alloc: Global, numbers: &Numbers, task: &Task) -> Result<TTask, OutOfMemory>
    requires { length numbers.now < 2 ^ 32 }
    ensures { IfOk result (λ t. t ≡ spec.typed_task numbers.now task.now) }
{
    Ok(TTask {
        id: numbers.of(alloc, &task.name)?,
        name: copied(alloc, &task.name)?,
        interval: task.interval,
        priority: priority_of(task.priority.value),
    })
}

fn typed_tasks(
    alloc: Global,
    numbers: &Numbers,
    tasks: &[Task],
) -> Result<Items<TTask>, OutOfMemory>
    requires { length numbers.now < 2 ^ 32 }
    ensures { IfOk result (λ ts. ts ≡ map (spec.typed_task numbers.now) tasks.now) }
{
    let mut items = Items::new(alloc);
    for task in tasks {
        items.push(typed_task(alloc, numbers, task)?)?;
    }
    Ok(items)
}

fn number_of(
    alloc: Global,
    numbers: &Numbers,
    name: &Option<Id>,
) -> Result<Option<u32>, OutOfMemory>
    requires { length numbers.now < 2 ^ 32 }
    ensures { IfOk result (λ n. n ≡ option_map (λ i. spec.number_in numbers.now i.name) name.now) }
{
    match name {
        None => Ok(None),
        Some(id) => Ok(Some(numbers.of(alloc, &id.name)?)),
    }
}

fn typed_inst(alloc: Global, numbers: &Numbers, inst: &Inst) -> Result<TInst, OutOfMemory>
    requires { length numbers.now < 2 ^ 32 }
    ensures { IfOk result (λ i. i ≡ spec.typed_inst numbers.now inst.now) }
{
    Ok(TInst {
        id: numbers.of(alloc, &inst.name)?,
        name: copied(alloc, &inst.name)?,
        task: number_of(alloc, numbers, &inst.task)?,
        program: numbers.of(alloc, &inst.program.name)?,
    })
}

fn typed_insts(
    alloc: Global,
    numbers: &Numbers,
    insts: &[Inst],
) -> Result<Items<TInst>, OutOfMemory>
    requires { length numbers.now < 2 ^ 32 }
    ensures { IfOk result (λ is. is ≡ map (spec.typed_inst numbers.now) insts.now) }
{
    let mut items = Items::new(alloc);
    for inst in insts {
        items.push(typed_inst(alloc, numbers, inst)?)?;
    }
    Ok(items)
}

fn typed_resource(
    alloc: Global,
    numbers: &Numbers,
    resource: &Resource,
) -> Result<TResource, OutOfMemory>
    requires { length numbers.now < 2 ^ 32 }
    ensures { IfOk result (λ r. r ≡ spec.typed_resource numbers.now resource.now) }
{
    Ok(TResource {
        id: numbers.of(alloc, &resource.name)?,
        name: copied(alloc, &resource.name)?,
        tasks: typed_tasks(alloc, numbers, resource.tasks.as_slice())?,
        insts: typed_insts(alloc, numbers, resource.insts.as_slice())?,
    })
}

fn typed_resources(
    alloc: Global,
    numbers: &Numbers,
    resources: &[Resource],
) -> Result<Items<TResource>, OutOfMemory>
    requires { length numbers.now < 2 ^ 32 }
    ensures { IfOk result (λ rs. rs ≡ map (spec.typed_resource numbers.now) resources.now) }
{
    let mut items = Items::new(alloc);
    for resource in resources {
        items.push(typed_resource(alloc, numbers, resource)?)?;
    }
    Ok(items)
}

fn typed_config(alloc: Global, numbers: &Numbers, config: &Config) -> Result<TConfig, OutOfMemory>
    requires { length numbers.now < 2 ^ 32 }
    ensures { IfOk result (λ c. c ≡ spec.typed_config numbers.now config.now) }
{
    Ok(TConfig {
        id: numbers.of(alloc, &config.name)?,
        name: copied(alloc, &config.name)?,
        resources: typed_resources(alloc, numbers, config.resources.as_slice())?,
    })
}

fn typed_configs(
    alloc: Global,
    numbers: &Numbers,
    configs: &[Config],
) -> Result<Items<TConfig>, OutOfMemory>
    requires { length numbers.now < 2 ^ 32 }
    ensures { IfOk result (λ cs. cs ≡ map (spec.typed_config numbers.now) configs.now) }
{
    let mut items = Items::new(alloc);
    for config in configs {
        items.push(typed_config(alloc, numbers, config)?)?;
    }
    Ok(items)
}

/// The typed unit of a source, by the numbers of its declared names.
pub fn typed_unit(alloc: Global, numbers: &Numbers, unit: &Unit) -> Result<TUnit, OutOfMemory>
    requires { length numbers.now < 2 ^ 32 }
    ensures { IfOk result (λ u. u ≡ spec.typed_with numbers.now unit.now) }
{
    Ok(TUnit {
        pous: typed_pous(alloc, numbers, unit.pous.as_slice())?,
        configs: typed_configs(alloc, numbers, unit.configs.as_slice())?,
    })
}
