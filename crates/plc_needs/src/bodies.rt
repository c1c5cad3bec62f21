//! What bodies need: what expressions and statements call, and the owners of values in them.
ghost use Rattle.std.specs.Prelude.{OnOk};
ghost use Rattle.std.specs.List.{flat_map};
ghost use Rattle.plc_names.specs.Needs as spec;
ghost use Rattle.plc_needs.specs.Own.{has};
ghost use Rattle.plc_needs.specs.Parts.{for_needs, arm_needs, choice_needs};
ghost use Rattle.plc_needs.specs.Row.{Adds};

use crate::name::{call, need};
use crate::own::Own;
use plc_base::OutOfMemory;
use plc_scopes::Scopes;
use plc_tree::tree::{Arg, Arm, Body, Choice, Expr, Label, Part, Path, Stmt};

// ---- expressions

#[cycle(expr)]
fn expr(scopes: &Scopes, own: &Own, expr: &Expr, row: &mut Vec<u32>) -> Result<(), OutOfMemory>
    ensures { OnOk result (Adds scopes.now.declared (spec.expr_needs (has own.now) expr.now) row.old.items row.new.items) }
{
    match expr {
        Expr::Number { .. } | Expr::Truth { .. } | Expr::Span { .. } => Ok(()),
        Expr::Value { owner, .. } => need(scopes, owner, row),
        Expr::Var(path) => parts(scopes, own, path.parts.as_slice(), row),
        Expr::Paren { inner, .. } => self::expr(scopes, own, inner.get(), row),
        Expr::Unary { inner, .. } => self::expr(scopes, own, inner.get(), row),
        Expr::Binary { left, right, .. } => {
            self::expr(scopes, own, left.get(), row)?;
            self::expr(scopes, own, right.get(), row)
        }
        Expr::Call { name, args, .. } => {
            call(scopes, own, name, row)?;
            self::args(scopes, own, args.as_slice(), row)
        }
    }
}

#[cycle(expr)]
fn exprs(scopes: &Scopes, own: &Own, exprs: &[Expr], row: &mut Vec<u32>) -> Result<(), OutOfMemory>
    ensures { OnOk result (Adds scopes.now.declared (flat_map (spec.expr_needs (has own.now)) exprs.now) row.old.items row.new.items) }
{
    for e in exprs {
        expr(scopes, own, e, row)?;
    }
    Ok(())
}

#[cycle(expr)]
fn part(scopes: &Scopes, own: &Own, part: &Part, row: &mut Vec<u32>) -> Result<(), OutOfMemory>
    ensures { OnOk result (Adds scopes.now.declared (spec.part_needs (has own.now) part.now) row.old.items row.new.items) }
{
    match part {
        Part::Field { .. } => Ok(()),
        Part::Index { list, .. } => exprs(scopes, own, list.as_slice(), row),
    }
}

#[cycle(expr)]
fn parts(scopes: &Scopes, own: &Own, parts: &[Part], row: &mut Vec<u32>) -> Result<(), OutOfMemory>
    ensures { OnOk result (Adds scopes.now.declared (flat_map (spec.part_needs (has own.now)) parts.now) row.old.items row.new.items) }
{
    for p in parts {
        part(scopes, own, p, row)?;
    }
    Ok(())
}

#[cycle(expr)]
fn arg(scopes: &Scopes, own: &Own, arg: &Arg, row: &mut Vec<u32>) -> Result<(), OutOfMemory>
    ensures { OnOk result (Adds scopes.now.declared (spec.arg_needs (has own.now) arg.now) row.old.items row.new.items) }
{
    match arg {
        Arg::Plain(value) => expr(scopes, own, value, row),
        Arg::Named { value, .. } => expr(scopes, own, value, row),
        Arg::Out { to, .. } => parts(scopes, own, to.parts.as_slice(), row),
    }
}

#[cycle(expr)]
fn args(scopes: &Scopes, own: &Own, args: &[Arg], row: &mut Vec<u32>) -> Result<(), OutOfMemory>
    ensures { OnOk result (Adds scopes.now.declared (flat_map (spec.arg_needs (has own.now)) args.now) row.old.items row.new.items) }
{
    for a in args {
        arg(scopes, own, a, row)?;
    }
    Ok(())
}

// ---- parts of statements

fn path(scopes: &Scopes, own: &Own, path: &Path, row: &mut Vec<u32>) -> Result<(), OutOfMemory>
    ensures { OnOk result (Adds scopes.now.declared (spec.path_needs (has own.now) path.now) row.old.items row.new.items) }
{
    parts(scopes, own, path.parts.as_slice(), row)
}

fn step(
    scopes: &Scopes,
    own: &Own,
    step: &Option<Expr>,
    row: &mut Vec<u32>,
) -> Result<(), OutOfMemory>
    ensures { OnOk result (Adds scopes.now.declared (spec.step_needs (has own.now) step.now) row.old.items row.new.items) }
{
    match step {
        Some(step) => expr(scopes, own, step, row),
        None => Ok(()),
    }
}

/// All of a FOR but its statements.
fn for_head(
    scopes: &Scopes,
    own: &Own,
    variable: &Path,
    start: &Expr,
    limit: &Expr,
    by: &Option<Expr>,
    row: &mut Vec<u32>,
) -> Result<(), OutOfMemory>
    ensures { OnOk result (Adds scopes.now.declared (for_needs (has own.now) variable.now start.now limit.now by.now) row.old.items row.new.items) }
{
    path(scopes, own, variable, row)?;
    expr(scopes, own, start, row)?;
    expr(scopes, own, limit, row)?;
    step(scopes, own, by, row)
}

/// The owner of a value.
fn label(scopes: &Scopes, label: &Label, row: &mut Vec<u32>) -> Result<(), OutOfMemory>
    ensures { OnOk result (Adds scopes.now.declared (spec.label_needs label.now) row.old.items row.new.items) }
{
    match label {
        Label::Range { .. } => Ok(()),
        Label::Value { owner, .. } => match owner {
            Some(owner) => need(scopes, owner, row),
            None => Ok(()),
        },
    }
}

fn labels(scopes: &Scopes, labels: &[Label], row: &mut Vec<u32>) -> Result<(), OutOfMemory>
    ensures { OnOk result (Adds scopes.now.declared (flat_map spec.label_needs labels.now) row.old.items row.new.items) }
{
    for l in labels {
        label(scopes, l, row)?;
    }
    Ok(())
}

// ---- statements

#[cycle(stmt)]
fn arms(scopes: &Scopes, own: &Own, arms: &[Arm], row: &mut Vec<u32>) -> Result<(), OutOfMemory>
    ensures { OnOk result (Adds scopes.now.declared (flat_map (arm_needs (has own.now)) arms.now) row.old.items row.new.items) }
{
    for arm in arms {
        expr(scopes, own, &arm.test, row)?;
        stmts(scopes, own, arm.body.as_slice(), row)?;
    }
    Ok(())
}

#[cycle(stmt)]
fn choices(
    scopes: &Scopes,
    own: &Own,
    choices: &[Choice],
    row: &mut Vec<u32>,
) -> Result<(), OutOfMemory>
    ensures { OnOk result (Adds scopes.now.declared (flat_map (choice_needs (has own.now)) choices.now) row.old.items row.new.items) }
{
    for choice in choices {
        labels(scopes, choice.labels.as_slice(), row)?;
        stmts(scopes, own, choice.body.as_slice(), row)?;
    }
    Ok(())
}

#[cycle(stmt)]
fn stmt(scopes: &Scopes, own: &Own, stmt: &Stmt, row: &mut Vec<u32>) -> Result<(), OutOfMemory>
    ensures { OnOk result (Adds scopes.now.declared (spec.stmt_needs (has own.now) stmt.now) row.old.items row.new.items) }
{
    match stmt {
        Stmt::Empty | Stmt::Exit(_) | Stmt::Return(_) => Ok(()),
        Stmt::Set { to, from } => {
            path(scopes, own, to, row)?;
            expr(scopes, own, from, row)
        }
        Stmt::Call { name, args, .. } => {
            call(scopes, own, name, row)?;
            self::args(scopes, own, args.as_slice(), row)
        }
        Stmt::If { arms, other } => {
            self::arms(scopes, own, arms.as_slice(), row)?;
            stmts(scopes, own, other.as_slice(), row)
        }
        Stmt::Case { pick, arms, other } => {
            expr(scopes, own, pick, row)?;
            choices(scopes, own, arms.as_slice(), row)?;
            stmts(scopes, own, other.as_slice(), row)
        }
        Stmt::For {
            var,
            start,
            limit,
            step,
            body,
        } => {
            for_head(scopes, own, var, start, limit, step, row)?;
            stmts(scopes, own, body.as_slice(), row)
        }
        Stmt::While { test, body } => {
            expr(scopes, own, test, row)?;
            stmts(scopes, own, body.as_slice(), row)
        }
        Stmt::Repeat { body, test } => {
            stmts(scopes, own, body.as_slice(), row)?;
            expr(scopes, own, test, row)
        }
    }
}

#[cycle(stmt)]
fn stmts(scopes: &Scopes, own: &Own, stmts: &[Stmt], row: &mut Vec<u32>) -> Result<(), OutOfMemory>
    ensures { OnOk result (Adds scopes.now.declared (flat_map (spec.stmt_needs (has own.now)) stmts.now) row.old.items row.new.items) }
{
    for s in stmts {
        stmt(scopes, own, s, row)?;
    }
    Ok(())
}

pub fn body(scopes: &Scopes, own: &Own, body: &Body, row: &mut Vec<u32>) -> Result<(), OutOfMemory>
    ensures { OnOk result (Adds scopes.now.declared (spec.body_needs (has own.now) body.now) row.old.items row.new.items) }
{
    match body {
        Body::St(list) => stmts(scopes, own, list.as_slice(), row),
    }
}
