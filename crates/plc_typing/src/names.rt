//! The walk over the declared names of a source, in text order: their numbers, and the least that is broken.
ghost use Rattle.std.specs.Prelude.{◌≡◌, ◌&&◌, not, OnOk, [], ◌∷◌};
ghost use Rattle.std.specs.List.{flat_map};
ghost use Rattle.plc_typing.specs.Standard.{is_standard};
ghost use Rattle.plc_typing.specs.Uses as spec;
ghost use Rattle.plc_typing.specs.UsesOfParts.{Declares};

use crate::numbers::Numbers;
use crate::one_use::suits;
use crate::standard::is_standard;
use plc_base::{Least, Name, OutOfMemory, Place};
use plc_tree::tree::{Config, Decl, Id, Inst, Pou, Resource, Section, Task, Unit};
use std::alloc::Global;

/// Whether a name may be declared: it is a new one, and no standard one.
fn is_free(new: bool, name: &Name) -> bool
    ensures { result ≡ (new && not (is_standard name.now)) }
{
    new && !is_standard(name.bytes())
}

/// A name is declared.
fn declare(
    alloc: Global,
    name: &Name,
    at: Place,
    numbers: &mut Numbers,
    met: &mut Least,
) -> Result<(), OutOfMemory>
    ensures { OnOk result (Declares (record { name = name.now; at = at } ∷ []) numbers.old numbers.new met.old met.new) }
{
    let new = numbers.declare(alloc, name)?;
    suits(is_free(new, name), at, met);
    Ok(())
}

// ---- declarations

fn ids(alloc: Global, ids: &[Id], numbers: &mut Numbers, met: &mut Least) -> Result<(), OutOfMemory>
    ensures { OnOk result (Declares ids.now numbers.old numbers.new met.old met.new) }
{
    for id in ids {
        declare(alloc, &id.name, id.at, numbers, met)?;
    }
    Ok(())
}

fn section(
    alloc: Global,
    section: &Section,
    numbers: &mut Numbers,
    met: &mut Least,
) -> Result<(), OutOfMemory>
    ensures { OnOk result (Declares (spec.section_names section.now) numbers.old numbers.new met.old met.new) }
{
    for decl in section.decls.as_slice() {
        ids(alloc, decl.names.as_slice(), numbers, met)?;
    }
    Ok(())
}

fn sections(
    alloc: Global,
    sections: &[Section],
    numbers: &mut Numbers,
    met: &mut Least,
) -> Result<(), OutOfMemory>
    ensures { OnOk result (Declares (flat_map spec.section_names sections.now) numbers.old numbers.new met.old met.new) }
{
    for s in sections {
        section(alloc, s, numbers, met)?;
    }
    Ok(())
}

fn pou(alloc: Global, pou: &Pou, numbers: &mut Numbers, met: &mut Least) -> Result<(), OutOfMemory>
    ensures { OnOk result (Declares (spec.pou_names pou.now) numbers.old numbers.new met.old met.new) }
{
    declare(alloc, &pou.name, pou.at, numbers, met)?;
    sections(alloc, pou.sections.as_slice(), numbers, met)
}

/// Those of the first, since others aren't built.
fn pous(
    alloc: Global,
    pous: &[Pou],
    numbers: &mut Numbers,
    met: &mut Least,
) -> Result<(), OutOfMemory>
    ensures { OnOk result (Declares (spec.first_names spec.pou_names pous.now) numbers.old numbers.new met.old met.new) }
{
    match pous {
        [] => Ok(()),
        [first, ..] => pou(alloc, first, numbers, met),
    }
}

// ---- configurations

fn tasks(
    alloc: Global,
    tasks: &[Task],
    numbers: &mut Numbers,
    met: &mut Least,
) -> Result<(), OutOfMemory>
    ensures { OnOk result (Declares (spec.first_names spec.task_names tasks.now) numbers.old numbers.new met.old met.new) }
{
    match tasks {
        [] => Ok(()),
        [first, ..] => declare(alloc, &first.name, first.at, numbers, met),
    }
}

fn insts(
    alloc: Global,
    insts: &[Inst],
    numbers: &mut Numbers,
    met: &mut Least,
) -> Result<(), OutOfMemory>
    ensures { OnOk result (Declares (spec.first_names spec.inst_names insts.now) numbers.old numbers.new met.old met.new) }
{
    match insts {
        [] => Ok(()),
        [first, ..] => declare(alloc, &first.name, first.at, numbers, met),
    }
}

fn resource(
    alloc: Global,
    resource: &Resource,
    numbers: &mut Numbers,
    met: &mut Least,
) -> Result<(), OutOfMemory>
    ensures { OnOk result (Declares (spec.resource_names resource.now) numbers.old numbers.new met.old met.new) }
{
    declare(alloc, &resource.name, resource.at, numbers, met)?;
    tasks(alloc, resource.tasks.as_slice(), numbers, met)?;
    insts(alloc, resource.insts.as_slice(), numbers, met)
}

fn resources(
    alloc: Global,
    resources: &[Resource],
    numbers: &mut Numbers,
    met: &mut Least,
) -> Result<(), OutOfMemory>
    ensures { OnOk result (Declares (spec.first_names spec.resource_names resources.now) numbers.old numbers.new met.old met.new) }
{
    match resources {
        [] => Ok(()),
        [first, ..] => resource(alloc, first, numbers, met),
    }
}

fn config(
    alloc: Global,
    config: &Config,
    numbers: &mut Numbers,
    met: &mut Least,
) -> Result<(), OutOfMemory>
    ensures { OnOk result (Declares (spec.config_names config.now) numbers.old numbers.new met.old met.new) }
{
    declare(alloc, &config.name, config.at, numbers, met)?;
    resources(alloc, config.resources.as_slice(), numbers, met)
}

fn configs(
    alloc: Global,
    configs: &[Config],
    numbers: &mut Numbers,
    met: &mut Least,
) -> Result<(), OutOfMemory>
    ensures { OnOk result (Declares (spec.first_names spec.config_names configs.now) numbers.old numbers.new met.old met.new) }
{
    match configs {
        [] => Ok(()),
        [first, ..] => config(alloc, first, numbers, met),
    }
}

// ---- sources

/// Whether the first program stands before the first configuration.
fn is_before(pous: &[Pou], configs: &[Config]) -> bool
    ensures { result ≡ spec.is_before pous.now configs.now }
{
    match (pous, configs) {
        ([pou, ..], [config, ..]) => pou.at.token < config.at.token,
        _ => true,
    }
}

/// All declared names of a source.
pub fn names(
    alloc: Global,
    unit: &Unit,
    numbers: &mut Numbers,
    met: &mut Least,
) -> Result<(), OutOfMemory>
    ensures { OnOk result (Declares (spec.names unit.now) numbers.old numbers.new met.old met.new) }
{
    let programs = unit.pous.as_slice();
    let configurations = unit.configs.as_slice();
    if is_before(programs, configurations) {
        pous(alloc, programs, numbers, met)?;
        configs(alloc, configurations, numbers, met)
    } else {
        configs(alloc, configurations, numbers, met)?;
        pous(alloc, programs, numbers, met)
    }
}
