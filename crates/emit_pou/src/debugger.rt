//! The debug rows: one for each listed row, numbered from 0.
ghost use Rattle.std.specs.Prelude.{◌≡◌, ◌+◌, ◌^◌, ◌≤◌, [], ◌∷◌, IfOk, map, length};
ghost use Rattle.plc_tree.specs.Rows.{var_row, inst_rows, resource_rows, config_rows, rows};
ghost use Rattle.emit_pou.specs.Emitted as spec;

use crate::c_name::copied;
use crate::conf::object_of;
use crate::pou::elem_of;
use crate::pous::variables;
use c_tree::tree::{CItem, CPath, CRow, CSel};
use plc_base::OutOfMemory;
use plc_tree::typed::{TConfig, TInst, TResource, TUnit, TVar};
use sqlite_items::Items;
use std::alloc::Global;

/// The row of a variable of a program instance.
fn debug_row(
    alloc: Global,
    resource: &TResource,
    inst: &TInst,
    var: &TVar,
    number: u32,
) -> Result<CItem, OutOfMemory>
    ensures { IfOk result (λ item. item ≡ spec.debug_row number (var_row resource.now inst.now var.now)) }
{
    let mut parts = Items::new(alloc);
    parts.push(CSel::Field(copied(alloc, &var.name)?))?;
    let path = CPath {
        first: object_of(alloc, resource, inst)?,
        arrow: None,
        parts,
    };
    Ok(CItem::DebugRow {
        number,
        elem: elem_of(var.ty),
        path,
        kind: CRow::Var,
    })
}

/// The rows of a program instance, numbered on.
fn inst_lines(
    alloc: Global,
    resource: &TResource,
    inst: &TInst,
    vars: &[TVar],
    from: u32,
) -> Result<Items<CItem>, OutOfMemory>
    requires { from + length vars.now ≤ 2 ^ 31 }
    ensures { IfOk result (λ items. items ≡ spec.debug_rows_from from (map (var_row resource.now inst.now) vars.now)) }
{
    let mut items = Items::new(alloc);
    let mut number = from;
    for var in vars {
        items.push(debug_row(alloc, resource, inst, var, number)?)?;
        number += 1;
    }
    Ok(items)
}

/// The rows of the program of an instance, numbered on.
fn program_lines(
    alloc: Global,
    unit: &TUnit,
    resource: &TResource,
    inst: &TInst,
    from: u32,
) -> Result<Items<CItem>, OutOfMemory>
    requires { from + length (inst_rows unit.now resource.now inst.now) ≤ 2 ^ 31 }
    ensures { IfOk result (λ items. items ≡ spec.debug_rows_from from (inst_rows unit.now resource.now inst.now)) }
{
    let vars = variables(unit.pous.as_slice(), inst.program);
    inst_lines(alloc, resource, inst, vars, from)
}

/// The number of the row after these.
fn after(from: u32, items: &Items<CItem>) -> u32
    requires { from + length items.now ≤ 2 ^ 31 }
    ensures { result ≡ from + length items.now }
{
    from + items.len() as u32
}

/// The rows of a resource, numbered on.
fn resource_lines(
    alloc: Global,
    unit: &TUnit,
    resource: &TResource,
    from: u32,
) -> Result<Items<CItem>, OutOfMemory>
    requires { from + length (resource_rows unit.now resource.now) ≤ 2 ^ 31 }
    ensures { IfOk result (λ items. items ≡ spec.debug_rows_from from (resource_rows unit.now resource.now)) }
{
    let mut items = Items::new(alloc);
    for inst in resource.insts.as_slice() {
        let next = after(from, &items);
        items.append(program_lines(alloc, unit, resource, inst, next)?)?;
    }
    Ok(items)
}

/// The rows of a configuration, numbered on.
fn config_lines(
    alloc: Global,
    unit: &TUnit,
    config: &TConfig,
    from: u32,
) -> Result<Items<CItem>, OutOfMemory>
    requires { from + length (config_rows unit.now config.now) ≤ 2 ^ 31 }
    ensures { IfOk result (λ items. items ≡ spec.debug_rows_from from (config_rows unit.now config.now)) }
{
    let mut items = Items::new(alloc);
    for resource in config.resources.as_slice() {
        let next = after(from, &items);
        items.append(resource_lines(alloc, unit, resource, next)?)?;
    }
    Ok(items)
}

/// The debug rows of a unit.
pub fn debug_items(alloc: Global, unit: &TUnit) -> Result<Items<CItem>, OutOfMemory>
    requires { length (rows unit.now) ≤ 2 ^ 31 }
    ensures { IfOk result (λ items. items ≡ spec.debug_items unit.now) }
{
    let mut items = Items::new(alloc);
    for config in unit.configs.as_slice() {
        let next = after(0, &items);
        items.append(config_lines(alloc, unit, config, next)?)?;
    }
    Ok(items)
}
