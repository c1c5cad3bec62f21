//! The objects and functions of resources and of the configuration.
ghost use Rattle.std.specs.Prelude.{◌≡◌, ◌++◌, [], ◌∷◌, IfOk, None, map, codes};
ghost use Rattle.plc_tree.specs.Rows.{object_name};
ghost use Rattle.emit_pou.specs.CNames.{init_name, body_name};
ghost use Rattle.emit_pou.specs.Emitted as spec;

use crate::c_name::{
    CONFIG_INIT, CONFIG_RUN, TICK, body_name, copied, init_name, joined, run_name, start_name,
};
use crate::expression::plain_path;
use crate::pou::void_function;
use crate::pous::program_name;
use c_tree::tree::{CArg, CExpr, CItem, CParam, CStmt, CType};
use plc_base::{Elem, Name, OutOfMemory};
use plc_tree::typed::{TConfig, TInst, TResource, TUnit};
use sqlite_items::Items;
use std::alloc::Global;

/// The C object of a program instance.
pub fn object_of(alloc: Global, resource: &TResource, inst: &TInst) -> Result<Name, OutOfMemory>
    ensures { IfOk result (λ name. name ≡ object_name resource.now inst.now) }
{
    let front = joined(alloc, resource.name.bytes(), b"__")?;
    joined(alloc, front.bytes(), inst.name.bytes())
}

/// The object of a program instance, a structure of its program.
fn inst_object(
    alloc: Global,
    unit: &TUnit,
    resource: &TResource,
    inst: &TInst,
) -> Result<CItem, OutOfMemory>
    ensures { IfOk result (λ item. item ≡ spec.inst_object unit.now resource.now inst.now) }
{
    let program = program_name(alloc, unit.pous.as_slice(), inst.program)?;
    Ok(CItem::Object {
        ty: CType::Struct(program),
        name: object_of(alloc, resource, inst)?,
        dims: Items::new(alloc),
    })
}

fn inst_objects(
    alloc: Global,
    unit: &TUnit,
    resource: &TResource,
) -> Result<Items<CItem>, OutOfMemory>
    ensures { IfOk result (λ items. items ≡ map (spec.inst_object unit.now resource.now) resource.now.insts) }
{
    let mut items = Items::new(alloc);
    for inst in resource.insts.as_slice() {
        items.push(inst_object(alloc, unit, resource, inst)?)?;
    }
    Ok(items)
}

/// A call of a function with the address of a program instance.
fn inst_call(
    alloc: Global,
    name: Name,
    resource: &TResource,
    inst: &TInst,
) -> Result<CStmt, OutOfMemory>
    ensures { IfOk result (λ stmt. stmt ≡ spec.inst_call name resource.now inst.now) }
{
    let object = object_of(alloc, resource, inst)?;
    let mut args = Items::new(alloc);
    args.push(CArg::Address(plain_path(alloc, object)))?;
    Ok(CStmt::Call { name, args })
}

fn init_call(
    alloc: Global,
    unit: &TUnit,
    resource: &TResource,
    inst: &TInst,
) -> Result<CStmt, OutOfMemory>
    ensures { IfOk result (λ stmt. stmt ≡ spec.init_call unit.now resource.now inst.now) }
{
    let program = program_name(alloc, unit.pous.as_slice(), inst.program)?;
    inst_call(alloc, init_name(alloc, &program)?, resource, inst)
}

fn body_call(
    alloc: Global,
    unit: &TUnit,
    resource: &TResource,
    inst: &TInst,
) -> Result<CStmt, OutOfMemory>
    ensures { IfOk result (λ stmt. stmt ≡ spec.body_call unit.now resource.now inst.now) }
{
    let program = program_name(alloc, unit.pous.as_slice(), inst.program)?;
    inst_call(alloc, body_name(alloc, &program)?, resource, inst)
}

fn init_calls(
    alloc: Global,
    unit: &TUnit,
    resource: &TResource,
) -> Result<Items<CStmt>, OutOfMemory>
    ensures { IfOk result (λ stmts. stmts ≡ map (spec.init_call unit.now resource.now) resource.now.insts) }
{
    let mut stmts = Items::new(alloc);
    for inst in resource.insts.as_slice() {
        stmts.push(init_call(alloc, unit, resource, inst)?)?;
    }
    Ok(stmts)
}

fn body_calls(
    alloc: Global,
    unit: &TUnit,
    resource: &TResource,
) -> Result<Items<CStmt>, OutOfMemory>
    ensures { IfOk result (λ stmts. stmts ≡ map (spec.body_call unit.now resource.now) resource.now.insts) }
{
    let mut stmts = Items::new(alloc);
    for inst in resource.insts.as_slice() {
        stmts.push(body_call(alloc, unit, resource, inst)?)?;
    }
    Ok(stmts)
}

/// The one parameter of the functions of a scan, the tick.
fn tick_param(alloc: Global) -> Result<Items<CParam>, OutOfMemory>
    ensures { IfOk result (λ params. params ≡ spec.tick ∷ []) }
{
    let mut params = Items::new(alloc);
    params.push(CParam::Value {
        elem: Elem::Ulint,
        name: Name::new(alloc, TICK)?,
    })?;
    Ok(params)
}

/// The objects and functions of a resource.
pub fn resource_items(
    alloc: Global,
    unit: &TUnit,
    resource: &TResource,
) -> Result<Items<CItem>, OutOfMemory>
    ensures { IfOk result (λ items. items ≡ spec.resource_items unit.now resource.now) }
{
    let mut items = inst_objects(alloc, unit, resource)?;
    let start = init_calls(alloc, unit, resource)?;
    let name = start_name(alloc, &resource.name)?;
    items.push(void_function(alloc, name, Items::new(alloc), start))?;
    let run = body_calls(alloc, unit, resource)?;
    let name = run_name(alloc, &resource.name)?;
    items.push(void_function(alloc, name, tick_param(alloc)?, run))?;
    Ok(items)
}

fn start_call(alloc: Global, resource: &TResource) -> Result<CStmt, OutOfMemory>
    ensures { IfOk result (λ stmt. stmt ≡ spec.start_call resource.now) }
{
    Ok(CStmt::Call {
        name: start_name(alloc, &resource.name)?,
        args: Items::new(alloc),
    })
}

/// A call of a resource's share of a scan, with the tick.
fn run_call(alloc: Global, resource: &TResource) -> Result<CStmt, OutOfMemory>
    ensures { IfOk result (λ stmt. stmt ≡ spec.run_call resource.now) }
{
    let tick = Name::new(alloc, TICK)?;
    let mut args = Items::new(alloc);
    args.push(CArg::Value(CExpr::Path(plain_path(alloc, tick))))?;
    Ok(CStmt::Call {
        name: run_name(alloc, &resource.name)?,
        args,
    })
}

fn start_calls(alloc: Global, resources: &[TResource]) -> Result<Items<CStmt>, OutOfMemory>
    ensures { IfOk result (λ stmts. stmts ≡ map spec.start_call resources.now) }
{
    let mut stmts = Items::new(alloc);
    for resource in resources {
        stmts.push(start_call(alloc, resource)?)?;
    }
    Ok(stmts)
}

fn run_calls(alloc: Global, resources: &[TResource]) -> Result<Items<CStmt>, OutOfMemory>
    ensures { IfOk result (λ stmts. stmts ≡ map spec.run_call resources.now) }
{
    let mut stmts = Items::new(alloc);
    for resource in resources {
        stmts.push(run_call(alloc, resource)?)?;
    }
    Ok(stmts)
}

/// The functions of a configuration: the start, and a scan.
pub fn config_items(alloc: Global, config: &TConfig) -> Result<Items<CItem>, OutOfMemory>
    ensures { IfOk result (λ items. items ≡ spec.config_items config.now) }
{
    let mut items = Items::new(alloc);
    let start = start_calls(alloc, config.resources.as_slice())?;
    let name = Name::new(alloc, CONFIG_INIT)?;
    items.push(void_function(alloc, name, Items::new(alloc), start))?;
    let run = run_calls(alloc, config.resources.as_slice())?;
    let name = Name::new(alloc, CONFIG_RUN)?;
    items.push(void_function(alloc, name, tick_param(alloc)?, run))?;
    Ok(items)
}
