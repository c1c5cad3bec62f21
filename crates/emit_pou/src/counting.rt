//! The parts of a FOR.
ghost use Rattle.std.specs.Prelude.{◌≡◌, ◌++◌, ◌∷◌, [], IfOk};
ghost use Rattle.plc_tree.specs.WellTyped.{AreNumbered};
ghost use Rattle.emit_pou.specs.Expressions as expr;
ghost use Rattle.emit_pou.specs.Statements as spec;

use crate::arm::{held, one, set_local};
use crate::c_name::{LIMIT, STEP};
use crate::expression::{bin, expression, in_64_bits, literal};
use crate::variable::leaf;
use c_tree::tree::{CBin, CExpr, CStmt};
use plc_base::{Elem, OutOfMemory};
use plc_tree::typed::{TExpr, TPath, TVar};
use sqlite_items::Items;
use std::alloc::Global;

/// The step, 1 where there is none.
fn step_expr(
    alloc: Global,
    vars: &[TVar],
    ty: Elem,
    step: &Option<TExpr>,
) -> Result<CExpr, OutOfMemory>
    requires { AreNumbered vars.now }
    ensures { IfOk result (λ e. e ≡ spec.c_step vars.now ty step.now) }
{
    match step {
        None => literal(alloc, ty, 1),
        Some(expr) => expression(alloc, vars, expr),
    }
}

/// The step and the limit, before each test.
pub fn head(
    alloc: Global,
    vars: &[TVar],
    ty: Elem,
    step: &Option<TExpr>,
    limit: &TExpr,
) -> Result<Items<CStmt>, OutOfMemory>
    requires { AreNumbered vars.now }
    ensures { IfOk result (λ items. items ≡ spec.head vars.now ty step.now limit.now) }
{
    let mut items = one(
        alloc,
        set_local(alloc, STEP, step_expr(alloc, vars, ty, step)?)?,
    )?;
    items.push(set_local(alloc, LIMIT, expression(alloc, vars, limit)?)?)?;
    Ok(items)
}

/// One side of the test: the step compared to 0, and the variable to the limit.
fn half(
    alloc: Global,
    vars: &[TVar],
    ty: Elem,
    var: &TPath,
    way: CBin,
    to: CBin,
) -> Result<CExpr, OutOfMemory>
    requires { AreNumbered vars.now }
    ensures { IfOk result (λ e. e ≡ spec.half ty (expr.leaf vars.now var.now.first) way to) }
{
    let zero = literal(alloc, ty, 0)?;
    let step = bin(alloc, way, held(alloc, ty, STEP)?, zero)?;
    let number = CExpr::GetVar(leaf(alloc, vars, var.first)?);
    let limit = bin(alloc, to, number, held(alloc, ty, LIMIT)?)?;
    bin(alloc, CBin::And, step, limit)
}

/// Upwards the limit is the last number, downwards too.
pub fn for_test(alloc: Global, vars: &[TVar], ty: Elem, var: &TPath) -> Result<CExpr, OutOfMemory>
    requires { AreNumbered vars.now }
    ensures { IfOk result (λ e. e ≡ spec.for_test ty (expr.leaf vars.now var.now.first)) }
{
    let up = half(alloc, vars, ty, var, CBin::Ge, CBin::Le)?;
    let down = half(alloc, vars, ty, var, CBin::Lt, CBin::Ge)?;
    bin(alloc, CBin::Or, up, down)
}

/// Behind a turn: the step is added to the variable, and step and limit are found anew.
pub fn count(
    alloc: Global,
    vars: &[TVar],
    ty: Elem,
    var: &TPath,
    step: &Option<TExpr>,
    limit: &TExpr,
) -> Result<Items<CStmt>, OutOfMemory>
    requires { AreNumbered vars.now }
    ensures { IfOk result (λ items. items ≡ spec.count vars.now ty (expr.leaf vars.now var.now.first) step.now limit.now) }
{
    let number = CExpr::GetVar(leaf(alloc, vars, var.first)?);
    let by = step_expr(alloc, vars, ty, step)?;
    let next = CStmt::SetVar {
        to: leaf(alloc, vars, var.first)?,
        from: in_64_bits(alloc, ty, CBin::Add, number, by)?,
    };
    let mut items = one(alloc, next)?;
    items.append(head(alloc, vars, ty, step, limit)?)?;
    Ok(items)
}
