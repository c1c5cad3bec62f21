//! The files of a unit, in order.
ghost use Rattle.std.specs.Prelude.{◌≡◌, ◌^◌, ◌≤◌, ◌++◌, [], ◌∷◌, ℕ, List, IfOk, map, length, codes};
ghost use Rattle.std.specs.List.{All, flat_map};
ghost use Rattle.plc_base.specs.Trace.{Event};
ghost use Rattle.plc_tree.specs.Files.{header_name, code_name};
ghost use Rattle.plc_tree.specs.Rows.{kept, rows};
ghost use Rattle.plc_tree.specs.Run.{Fair, trace_src};
ghost use Rattle.plc_tree.specs.WellTyped.{AreNumbered, IsTypedPou};
ghost use Rattle.c_meaning.specs.Run.{trace_c};
ghost use Rattle.c_meaning.specs.Rules.{Good};
ghost use Rattle.emit_pou.specs.Keeps.{BodyLike, ScansLike, StartsLike};
ghost use Rattle.emit_pou.specs.Single.{Single, IsSingle, unit_of};
ghost use Rattle.emit_pou.specs.SourceNames.{HasSourceNames};
ghost use Rattle.emit_pou.specs.Emitted as spec;

use crate::c_name::joined;
use crate::conf::{config_items, resource_items};
use crate::debugger::debug_items;
use crate::pou::{functions, structures};
use c_tree::tree::{CItem, CPart, CUnit};
use plc_base::{Name, OutOfMemory};
use plc_tree::typed::{TConfig, TResource, TUnit};
use sqlite_items::Items;
use std::alloc::Global;

fn part(name: Name, items: Items<CItem>) -> CPart
    ensures { result ≡ spec.part name items }
{
    CPart { name, items }
}

/// The header of a configuration, with the objects of its globals: there are none yet.
fn header_part(alloc: Global, config: &TConfig) -> Result<CPart, OutOfMemory>
    ensures { IfOk result (λ p. p ≡ spec.header_part config.now) }
{
    let name = joined(alloc, config.name.bytes(), b".h")?;
    Ok(part(name, Items::new(alloc)))
}

fn header_parts(alloc: Global, configs: &[TConfig]) -> Result<Items<CPart>, OutOfMemory>
    ensures { IfOk result (λ ps. ps ≡ map spec.header_part configs.now) }
{
    let mut parts = Items::new(alloc);
    for config in configs {
        parts.push(header_part(alloc, config)?)?;
    }
    Ok(parts)
}

fn resource_part(alloc: Global, unit: &TUnit, resource: &TResource) -> Result<CPart, OutOfMemory>
    ensures { IfOk result (λ p. p ≡ spec.resource_part unit.now resource.now) }
{
    let name = joined(alloc, resource.name.bytes(), b".c")?;
    Ok(part(name, resource_items(alloc, unit, resource)?))
}

fn config_part(alloc: Global, config: &TConfig) -> Result<CPart, OutOfMemory>
    ensures { IfOk result (λ p. p ≡ spec.part (code_name config.now.name) (spec.config_items config.now)) }
{
    let name = joined(alloc, config.name.bytes(), b".c")?;
    Ok(part(name, config_items(alloc, config)?))
}

/// The code of a configuration: a file for each resource, and its own.
fn config_parts(alloc: Global, unit: &TUnit, config: &TConfig) -> Result<Items<CPart>, OutOfMemory>
    ensures { IfOk result (λ ps. ps ≡ spec.config_parts unit.now config.now) }
{
    let mut parts = Items::new(alloc);
    for resource in config.resources.as_slice() {
        parts.push(resource_part(alloc, unit, resource)?)?;
    }
    parts.push(config_part(alloc, config)?)?;
    Ok(parts)
}

fn all_config_parts(alloc: Global, unit: &TUnit) -> Result<Items<CPart>, OutOfMemory>
    ensures { IfOk result (λ ps. ps ≡ flat_map (spec.config_parts unit.now) unit.now.configs) }
{
    let mut parts = Items::new(alloc);
    for config in unit.configs.as_slice() {
        parts.append(config_parts(alloc, unit, config)?)?;
    }
    Ok(parts)
}

/// The headers: of all POUs, and of each configuration.
fn headers(alloc: Global, unit: &TUnit) -> Result<Items<CPart>, OutOfMemory>
    ensures { IfOk result (λ ps. ps ≡ spec.part (codes "POUS.h") (map spec.pou_struct unit.now.pous) ∷ map spec.header_part unit.now.configs) }
{
    let mut parts = Items::new(alloc);
    let structures = structures(alloc, unit.pous.as_slice())?;
    parts.push(part(Name::new(alloc, b"POUS.h")?, structures))?;
    parts.append(header_parts(alloc, unit.configs.as_slice())?)?;
    Ok(parts)
}

/// The code: of all POUs, and of each configuration with its resources.
fn code(alloc: Global, unit: &TUnit) -> Result<Items<CPart>, OutOfMemory>
    requires { All (λ p. AreNumbered p.vars) unit.now.pous }
    ensures { IfOk result (λ ps. ps ≡ spec.part (codes "POUS.c") (flat_map spec.pou_functions unit.now.pous) ∷ flat_map (spec.config_parts unit.now) unit.now.configs) }
{
    let mut parts = Items::new(alloc);
    let functions = functions(alloc, unit.pous.as_slice())?;
    parts.push(part(Name::new(alloc, b"POUS.c")?, functions))?;
    parts.append(all_config_parts(alloc, unit)?)?;
    Ok(parts)
}

/// All files.
fn all_parts(alloc: Global, unit: &TUnit) -> Result<Items<CPart>, OutOfMemory>
    requires few { length (rows unit.now) ≤ 2 ^ 31 }
    requires numbered { All (λ p. AreNumbered p.vars) unit.now.pous }
    ensures { IfOk result (λ ps. ps ≡ (spec.c_unit unit.now).parts) }
{
    let mut parts = headers(alloc, unit)?;
    parts.append(code(alloc, unit)?)?;
    let rows = debug_items(alloc, unit)?;
    parts.push(part(Name::new(alloc, b"plc_debugger.c")?, rows))?;
    Ok(parts)
}

/// The stated C of a typed source, one part a file.
pub fn emit_unit(alloc: Global, unit: &TUnit) -> Result<CUnit, OutOfMemory>
    requires few { length (rows unit.now) ≤ 2 ^ 31 }
    requires numbered { All (λ p. AreNumbered p.vars) unit.now.pous }
    ensures is { IfOk result (λ c. c ≡ spec.c_unit unit.now) }

    // With any bound of turns and any inputs, forces, releases and starts, each scan of the unit shows what the source's
    // scan shows.
    ensures traces { IfOk result (λ c. IsSingle unit.now → (bound : ℕ) (events : List Event) → Fair unit.now events → trace_c c (kept unit.now) bound events ≡ trace_src unit.now bound events) }

    // The start ends like the initial store, at any bound; a scan, and the body of the program alone, end like the source
    // does, from like stores with any forces.
    ensures starts { IfOk result (λ c. IsSingle unit.now → StartsLike unit.now c) }
    ensures scans { IfOk result (λ c. IsSingle unit.now → ScansLike unit.now c) }
    ensures body { IfOk result (λ c. (single : IsSingle unit.now) → BodyLike single.parts c) }

    // With names as a source has them, and a body that is typed well, the unit meets all rules of the stated C.
    ensures good { IfOk result (λ c. (x : Single) → unit.now ≡ unit_of x → HasSourceNames x → IsTypedPou x.pou → Good c) }
{
    Ok(CUnit {
        parts: all_parts(alloc, unit)?,
    })
}
