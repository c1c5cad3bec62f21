//! The C of statements.
ghost use Rattle.std.specs.Prelude.{◌≡◌, ◌++◌, ◌∷◌, [], IfOk, map};
ghost use Rattle.std.specs.List.{flat_map};
ghost use Rattle.plc_tree.specs.WellTyped.{AreNumbered};
ghost use Rattle.emit_pou.specs.CNames.{case_name};
ghost use Rattle.emit_pou.specs.Expressions as expr;
ghost use Rattle.emit_pou.specs.Statements as spec;

use crate::arm::{arm, choice, dispatch, one, set_local, small};
use crate::c_name::{CASE, LIMIT, PICK, STEP};
use crate::counting::{count, for_test, head};
use crate::expression::{elem_of_node, expression};
use crate::variable::leaf;
use c_tree::tree::{CExpr, CLocal, CStmt};
use plc_base::{Elem, Name, OutOfMemory};
use plc_tree::typed::{TArm, TBody, TChoice, TExpr, TPath, TStmt, TVar};
use sqlite_items::Items;
use std::alloc::Global;

// ---- locals

fn local_at_0(alloc: Global, elem: Elem, name: &[u8]) -> Result<CLocal, OutOfMemory>
    ensures { IfOk result (λ l. l ≡ spec.local_at_0 elem name.now) }
{
    Ok(CLocal {
        elem,
        name: Name::new(alloc, name)?,
        init: small(0),
    })
}

/// The locals of a body's function.
pub fn body_locals(alloc: Global) -> Result<Items<CLocal>, OutOfMemory>
    ensures { IfOk result (λ locals. locals ≡ spec.body_locals) }
{
    let mut locals = Items::new(alloc);
    locals.push(local_at_0(alloc, Elem::Usint, PICK)?)?;
    locals.push(local_at_0(alloc, Elem::Ulint, CASE)?)?;
    locals.push(local_at_0(alloc, Elem::Ulint, STEP)?)?;
    locals.push(local_at_0(alloc, Elem::Ulint, LIMIT)?)?;
    Ok(locals)
}

// ---- loops around statements

fn set_var(alloc: Global, vars: &[TVar], to: &TPath, from: &TExpr) -> Result<CStmt, OutOfMemory>
    requires { AreNumbered vars.now }
    ensures { IfOk result (λ stmt. stmt ≡ CStmt.SetVar (expr.leaf vars.now to.now.first) (expr.c_expr vars.now from.now)) }
{
    Ok(CStmt::SetVar {
        to: leaf(alloc, vars, to.first)?,
        from: expression(alloc, vars, from)?,
    })
}

/// The end of the innermost loop where a test holds.
fn until(alloc: Global, test: CExpr) -> Result<CStmt, OutOfMemory>
    ensures { IfOk result (λ stmt. stmt ≡ spec.until test) }
{
    Ok(CStmt::If {
        test,
        body: one(alloc, CStmt::Break)?,
        other: None,
    })
}

/// A loop that ends behind its body where the test holds.
fn repeat(alloc: Global, mut body: Items<CStmt>, test: CExpr) -> Result<Items<CStmt>, OutOfMemory>
    ensures { IfOk result (λ items. items ≡ CStmt.While (spec.small 1) (body ++ (spec.until test ∷ [])) ∷ []) }
{
    let end = until(alloc, test)?;
    body.push(end)?;
    let test = small(1);
    one(alloc, CStmt::While { test, body })
}

/// The parts of a FOR that stand outside its statements.
#[derive(Clone, Copy)]
struct Counter<'a> {
    var: &'a TPath,
    start: &'a TExpr,
    limit: &'a TExpr,
    step: &'a Option<TExpr>,
}

/// A FOR around its statements.
fn count_loop(
    alloc: Global,
    vars: &[TVar],
    counter: &Counter<'_>,
    mut body: Items<CStmt>,
) -> Result<Items<CStmt>, OutOfMemory>
    requires { AreNumbered vars.now }
    ensures { IfOk result (λ items. items ≡ spec.for_loop vars.now counter.now.var.now counter.now.start.now counter.now.limit.now counter.now.step.now body) }
{
    let ty = elem_of_node(counter.start);
    body.append(count(alloc, vars, ty, counter.var, counter.step, counter.limit)?)?;
    let test = for_test(alloc, vars, ty, counter.var)?;
    let mut items = one(alloc, set_var(alloc, vars, counter.var, counter.start)?)?;
    items.append(head(alloc, vars, ty, counter.step, counter.limit)?)?;
    items.push(CStmt::While { test, body })?;
    Ok(items)
}

/// A CASE around its arms.
fn case(
    alloc: Global,
    pick: CExpr,
    arms: Items<CStmt>,
    other: Items<CStmt>,
) -> Result<Items<CStmt>, OutOfMemory>
    ensures { IfOk result (λ items. items ≡ spec.set_local case_name pick ∷ spec.pick 0 ∷ (arms ++ (spec.where_picked 0 other ∷ []))) }
{
    let mut items = one(alloc, set_local(alloc, CASE, pick)?)?;
    items.append(dispatch(alloc, arms, other)?)?;
    Ok(items)
}

// ---- statements

#[cycle(stmt)]
#[tactic(auto, using(crate::proofs::EmittedViews::statements))]
fn statement(alloc: Global, vars: &[TVar], stmt: &TStmt) -> Result<Items<CStmt>, OutOfMemory>
    requires { AreNumbered vars.now }
    ensures { IfOk result (λ items. items ≡ spec.c_stmt vars.now stmt.now) }
{
    match stmt {
        TStmt::Empty => Ok(Items::new(alloc)),
        TStmt::Set { to, from } => one(alloc, set_var(alloc, vars, to, from)?),
        TStmt::If { arms: list, other } => {
            let arms = arms(alloc, vars, list.as_slice())?;
            dispatch(alloc, arms, block(alloc, vars, other.as_slice())?)
        }
        TStmt::Case {
            pick,
            arms: list,
            other,
        } => {
            let arms = choices(alloc, vars, elem_of_node(pick), list.as_slice())?;
            let pick = expression(alloc, vars, pick)?;
            case(alloc, pick, arms, block(alloc, vars, other.as_slice())?)
        }
        TStmt::For {
            var,
            start,
            limit,
            step,
            body,
        } => {
            let counter = Counter {
                var,
                start,
                limit,
                step,
            };
            count_loop(alloc, vars, &counter, block(alloc, vars, body.as_slice())?)
        }
        TStmt::While { test, body } => {
            let test = expression(alloc, vars, test)?;
            let body = block(alloc, vars, body.as_slice())?;
            one(alloc, CStmt::While { test, body })
        }
        TStmt::Repeat { body, test } => {
            let body = block(alloc, vars, body.as_slice())?;
            repeat(alloc, body, expression(alloc, vars, test)?)
        }
        TStmt::Exit => one(alloc, CStmt::Break),
        TStmt::Return => one(alloc, CStmt::Return(None)),
    }
}

/// Statements, one after the other.
#[cycle(stmt)]
fn block(alloc: Global, vars: &[TVar], stmts: &[TStmt]) -> Result<Items<CStmt>, OutOfMemory>
    requires { AreNumbered vars.now }
    ensures { IfOk result (λ items. items ≡ flat_map (spec.c_stmt vars.now) stmts.now) }
{
    let mut items = Items::new(alloc);
    for stmt in stmts {
        items.append(statement(alloc, vars, stmt)?)?;
    }
    Ok(items)
}

/// The arms of an IF.
#[cycle(stmt)]
fn arms(alloc: Global, vars: &[TVar], list: &[TArm]) -> Result<Items<CStmt>, OutOfMemory>
    requires { AreNumbered vars.now }
    ensures { IfOk result (λ items. items ≡ map (spec.arm_of vars.now) list.now) }
{
    let mut items = Items::new(alloc);
    for a in list {
        let test = expression(alloc, vars, &a.test)?;
        items.push(arm(alloc, test, block(alloc, vars, a.body.as_slice())?)?)?;
    }
    Ok(items)
}

/// The arms of a CASE.
#[cycle(stmt)]
fn choices(
    alloc: Global,
    vars: &[TVar],
    ty: Elem,
    list: &[TChoice],
) -> Result<Items<CStmt>, OutOfMemory>
    requires { AreNumbered vars.now }
    ensures { IfOk result (λ items. items ≡ flat_map (spec.choice_of vars.now ty) list.now) }
{
    let mut items = Items::new(alloc);
    for c in list {
        let body = block(alloc, vars, c.body.as_slice())?;
        items.append(choice(alloc, ty, c.labels.as_slice(), body)?)?;
    }
    Ok(items)
}

/// The statements of a body.
pub fn body_stmts(alloc: Global, vars: &[TVar], body: &TBody) -> Result<Items<CStmt>, OutOfMemory>
    requires { AreNumbered vars.now }
    ensures { IfOk result (λ items. items ≡ spec.body_stmts vars.now body.now) }
{
    match body {
        TBody::St(list) => block(alloc, vars, list.as_slice()),
    }
}
