//! The structure and the functions of each program organisation unit.
ghost use Rattle.std.specs.Prelude.{◌≡◌, [], ◌∷◌, IfOk, None, map};
ghost use Rattle.std.specs.List.{All, flat_map};
ghost use Rattle.plc_tree.specs.Rows.{elem_of};
ghost use Rattle.plc_tree.specs.WellTyped.{AreNumbered};
ghost use Rattle.emit_pou.specs.Emitted as spec;

use crate::c_name::{SELF, body_name, copied, init_name};
use crate::expression::literal;
use crate::statement::{body_locals, body_stmts};
use crate::variable::own;
use c_tree::tree::{CItem, CParam, CStmt, CType};
use plc_base::{Elem, Name, OutOfMemory};
use plc_tree::typed::{TPou, TVar, TypeId};
use sqlite_items::Items;
use std::alloc::Global;

/// The elementary type of a type's numbers.
pub fn elem_of(ty: TypeId) -> Elem
    ensures { result ≡ elem_of ty }
{
    match ty {
        TypeId::Elem(elem) => elem,
    }
}

/// The member of a variable: its value with flags.
fn member(alloc: Global, var: &TVar) -> Result<CItem, OutOfMemory>
    ensures { IfOk result (λ item. item ≡ spec.member var.now) }
{
    Ok(CItem::Object {
        ty: CType::Flagged(elem_of(var.ty)),
        name: copied(alloc, &var.name)?,
        dims: Items::new(alloc),
    })
}

fn members(alloc: Global, vars: &[TVar]) -> Result<Items<CItem>, OutOfMemory>
    ensures { IfOk result (λ items. items ≡ map spec.member vars.now) }
{
    let mut items = Items::new(alloc);
    for var in vars {
        items.push(member(alloc, var)?)?;
    }
    Ok(items)
}

/// The structure of a POU.
fn structure(alloc: Global, pou: &TPou) -> Result<CItem, OutOfMemory>
    ensures { IfOk result (λ item. item ≡ spec.pou_struct pou.now) }
{
    Ok(CItem::Struct {
        members: members(alloc, pou.vars.as_slice())?,
        name: copied(alloc, &pou.name)?,
    })
}

/// The structures of all POUs.
pub fn structures(alloc: Global, pous: &[TPou]) -> Result<Items<CItem>, OutOfMemory>
    ensures { IfOk result (λ items. items ≡ map spec.pou_struct pous.now) }
{
    let mut items = Items::new(alloc);
    for pou in pous {
        items.push(structure(alloc, pou)?)?;
    }
    Ok(items)
}

/// A function without a result and without locals.
pub fn void_function(alloc: Global, name: Name, params: Items<CParam>, body: Items<CStmt>) -> CItem
    ensures { result ≡ spec.void_function name params body }
{
    CItem::Func {
        result: None,
        name,
        params,
        locals: Items::new(alloc),
        body,
    }
}

/// A function without a result, with the locals of a body.
fn working_function(
    alloc: Global,
    name: Name,
    params: Items<CParam>,
    body: Items<CStmt>,
) -> Result<CItem, OutOfMemory>
    ensures { IfOk result (λ item. item ≡ spec.working_function name params body) }
{
    Ok(CItem::Func {
        result: None,
        name,
        params,
        locals: body_locals(alloc)?,
        body,
    })
}

/// The one parameter of a POU's functions, a pointer to the running instance.
fn self_param(alloc: Global, pou: &Name) -> Result<Items<CParam>, OutOfMemory>
    ensures { IfOk result (λ params. params ≡ spec.self pou.now ∷ []) }
{
    let mut params = Items::new(alloc);
    params.push(CParam::Pointer {
        to: copied(alloc, pou)?,
        name: Name::new(alloc, SELF)?,
    })?;
    Ok(params)
}

/// The statement that sets a variable: one that starts at 0 needs none.
fn init_stmt(alloc: Global, var: &TVar) -> Result<Items<CStmt>, OutOfMemory>
    ensures { IfOk result (λ items. items ≡ spec.init_stmt var.now) }
{
    let mut items = Items::new(alloc);
    if var.init != 0 {
        items.push(CStmt::InitVar {
            to: own(alloc, &var.name)?,
            from: literal(alloc, elem_of(var.ty), var.init)?,
        })?;
    }
    Ok(items)
}

/// The statements that set a POU's variables.
fn init_stmts(alloc: Global, vars: &[TVar]) -> Result<Items<CStmt>, OutOfMemory>
    ensures { IfOk result (λ items. items ≡ flat_map spec.init_stmt vars.now) }
{
    let mut items = Items::new(alloc);
    for var in vars {
        items.append(init_stmt(alloc, var)?)?;
    }
    Ok(items)
}

/// The functions of a POU.
fn functions_of(alloc: Global, pou: &TPou) -> Result<Items<CItem>, OutOfMemory>
    requires { AreNumbered pou.now.vars }
    ensures { IfOk result (λ items. items ≡ spec.pou_functions pou.now) }
{
    let mut items = Items::new(alloc);
    let start = init_stmts(alloc, pou.vars.as_slice())?;
    let params = self_param(alloc, &pou.name)?;
    items.push(void_function(alloc, init_name(alloc, &pou.name)?, params, start))?;
    let body = body_stmts(alloc, pou.vars.as_slice(), &pou.body)?;
    let params = self_param(alloc, &pou.name)?;
    let name = body_name(alloc, &pou.name)?;
    items.push(working_function(alloc, name, params, body)?)?;
    Ok(items)
}

/// The functions of all POUs.
pub fn functions(alloc: Global, pous: &[TPou]) -> Result<Items<CItem>, OutOfMemory>
    requires { All (λ p. AreNumbered p.vars) pous.now }
    ensures { IfOk result (λ items. items ≡ flat_map spec.pou_functions pous.now) }
{
    let mut items = Items::new(alloc);
    for pou in pous {
        items.append(functions_of(alloc, pou)?)?;
    }
    Ok(items)
}
