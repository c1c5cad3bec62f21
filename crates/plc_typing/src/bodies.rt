//! The uses in bodies: expressions and statements.
ghost use Rattle.std.specs.Prelude.{◌≡◌, ◌&&◌, OnOk};
ghost use Rattle.std.specs.List.{flat_map};
ghost use Rattle.plc_base.specs.Least.{Meets};
ghost use Rattle.plc_typing.specs.Scope.{types_of};
ghost use Rattle.plc_typing.specs.Uses as spec;
ghost use Rattle.plc_typing.specs.UsesOfParts.{set_faults, counted_faults, for_faults, arm_faults, choice_faults};

use crate::constants::{const_of, is_zero};
use crate::one_use::suits;
use crate::plain::{is_in_int, is_of, no_parts, path, place_of_expr, plain_node};
use crate::scope::{Scope, is_elem};
use plc_base::{Elem, Least, OutOfMemory};
use plc_tree::tree::{Arm, Body, Choice, Expr, Label, Path, Stmt};
use std::alloc::Global;

// ---- whole expressions

/// Of the type that is wanted, where one is wanted and it has one.
fn is_as_wanted(want: Option<Elem>, elem: Option<Elem>) -> bool
    ensures { result ≡ spec.is_as_wanted want elem }
{
    match (want, elem) {
        (Some(want), Some(elem)) => is_elem(want, elem),
        _ => true,
    }
}

/// Whether a whole expression of this type does what is wanted of it.
fn suits_whole(does: bool, want: Option<Elem>, elem: Option<Elem>) -> bool
    ensures { result ≡ (does && spec.is_as_wanted want elem) }
{
    does && is_as_wanted(want, elem)
}

/// A whole expression of this type.
fn whole(does: bool, want: Option<Elem>, elem: Option<Elem>, expr: &Expr, met: &mut Least)
    ensures { Meets (spec.suits (does && spec.is_as_wanted want elem) (spec.place_of_expr expr.now)) met.old met.new }
{
    suits(suits_whole(does, want, elem), place_of_expr(expr), met);
}

/// One of the type that is wanted.
fn expression(
    alloc: Global,
    scope: &Scope,
    want: Option<Elem>,
    expr: &Expr,
    met: &mut Least,
) -> Result<(), OutOfMemory>
    ensures { OnOk result (Meets (spec.expr_faults (types_of scope.now) want expr.now) met.old met.new) }
{
    let known = plain_node(alloc, scope, expr, met)?;
    whole(true, want, known.elem, expr, met);
    Ok(())
}

/// The selector of a CASE is INT, and has no number by itself.
fn selector(alloc: Global, scope: &Scope, expr: &Expr, met: &mut Least) -> Result<(), OutOfMemory>
    ensures { OnOk result (Meets (spec.pick_faults (types_of scope.now) expr.now) met.old met.new) }
{
    let known = plain_node(alloc, scope, expr, met)?;
    whole(!known.has_const, Some(Elem::Int), known.elem, expr, met);
    Ok(())
}

/// The step of a FOR is INT, and not 0.
fn step(
    alloc: Global,
    scope: &Scope,
    expr: &Option<Expr>,
    met: &mut Least,
) -> Result<(), OutOfMemory>
    ensures { OnOk result (Meets (spec.step_faults (types_of scope.now) expr.now) met.old met.new) }
{
    let Some(expr) = expr else {
        return Ok(());
    };
    let known = plain_node(alloc, scope, expr, met)?;
    let does = !is_zero(const_of(expr));
    whole(does, Some(Elem::Int), known.elem, expr, met);
    Ok(())
}

// ---- parts of statements

/// The target of an assignment is a variable, and the value is of its type.
fn set(
    alloc: Global,
    scope: &Scope,
    to: &Path,
    from: &Expr,
    met: &mut Least,
) -> Result<(), OutOfMemory>
    ensures { OnOk result (Meets (set_faults (types_of scope.now) to.now from.now) met.old met.new) }
{
    let want = path(alloc, scope, to, met)?;
    expression(alloc, scope, want, from, met)
}

/// The variable of a FOR is INT, as its start and its limit are.
fn counted(
    alloc: Global,
    scope: &Scope,
    variable: &Path,
    start: &Expr,
    limit: &Expr,
    met: &mut Least,
) -> Result<(), OutOfMemory>
    ensures { OnOk result (Meets (counted_faults (types_of scope.now) variable.now start.now limit.now) met.old met.new) }
{
    let elem = scope.elem_of(alloc, &variable.first)?;
    suits(is_of(Elem::Int, elem), variable.at, met);
    no_parts(variable.parts.as_slice(), met);
    expression(alloc, scope, Some(Elem::Int), start, met)?;
    expression(alloc, scope, Some(Elem::Int), limit, met)
}

/// All of a FOR but its statements.
fn for_head(
    alloc: Global,
    scope: &Scope,
    variable: &Path,
    start: &Expr,
    limit: &Expr,
    by: &Option<Expr>,
    met: &mut Least,
) -> Result<(), OutOfMemory>
    ensures { OnOk result (Meets (for_faults (types_of scope.now) variable.now start.now limit.now by.now) met.old met.new) }
{
    counted(alloc, scope, variable, start, limit, met)?;
    step(alloc, scope, by, met)
}

/// A label is a number of INT, or two.
fn label(label: &Label, met: &mut Least)
    ensures { Meets (spec.label_faults label.now) met.old met.new }
{
    match label {
        Label::Range { low, high, at } => {
            suits(is_in_int(*low) && is_in_int(*high), *at, met);
        }
        Label::Value { at, .. } => suits(false, *at, met),
    }
}

fn labels(labels: &[Label], met: &mut Least)
    ensures { Meets (flat_map spec.label_faults labels.now) met.old met.new }
{
    for l in labels {
        label(l, met);
    }
}

// ---- statements, where `inside` says whether a loop is around

#[cycle(stmt)]
fn if_arms(
    alloc: Global,
    scope: &Scope,
    inside: bool,
    arms: &[Arm],
    met: &mut Least,
) -> Result<(), OutOfMemory>
    ensures { OnOk result (Meets (flat_map (arm_faults (types_of scope.now) inside) arms.now) met.old met.new) }
{
    for arm in arms {
        expression(alloc, scope, Some(Elem::Bool), &arm.test, met)?;
        stmts(alloc, scope, inside, arm.body.as_slice(), met)?;
    }
    Ok(())
}

#[cycle(stmt)]
fn case_arms(
    alloc: Global,
    scope: &Scope,
    inside: bool,
    choices: &[Choice],
    met: &mut Least,
) -> Result<(), OutOfMemory>
    ensures { OnOk result (Meets (flat_map (choice_faults (types_of scope.now) inside) choices.now) met.old met.new) }
{
    for choice in choices {
        labels(choice.labels.as_slice(), met);
        stmts(alloc, scope, inside, choice.body.as_slice(), met)?;
    }
    Ok(())
}

#[cycle(stmt)]
fn stmt(
    alloc: Global,
    scope: &Scope,
    inside: bool,
    stmt: &Stmt,
    met: &mut Least,
) -> Result<(), OutOfMemory>
    ensures { OnOk result (Meets (spec.stmt_faults (types_of scope.now) inside stmt.now) met.old met.new) }
{
    match stmt {
        Stmt::Empty | Stmt::Return(_) => Ok(()),
        Stmt::Set { to, from } => set(alloc, scope, to, from, met),
        Stmt::Call { at, .. } => {
            suits(false, *at, met);
            Ok(())
        }
        Stmt::Exit(at) => {
            suits(inside, *at, met);
            Ok(())
        }
        Stmt::If { arms, other } => {
            if_arms(alloc, scope, inside, arms.as_slice(), met)?;
            stmts(alloc, scope, inside, other.as_slice(), met)
        }
        Stmt::Case { pick, arms, other } => {
            selector(alloc, scope, pick, met)?;
            case_arms(alloc, scope, inside, arms.as_slice(), met)?;
            stmts(alloc, scope, inside, other.as_slice(), met)
        }
        Stmt::For {
            var,
            start,
            limit,
            step,
            body,
        } => {
            for_head(alloc, scope, var, start, limit, step, met)?;
            stmts(alloc, scope, true, body.as_slice(), met)
        }
        Stmt::While { test, body } => {
            expression(alloc, scope, Some(Elem::Bool), test, met)?;
            stmts(alloc, scope, true, body.as_slice(), met)
        }
        Stmt::Repeat { body, test } => {
            stmts(alloc, scope, true, body.as_slice(), met)?;
            expression(alloc, scope, Some(Elem::Bool), test, met)
        }
    }
}

#[cycle(stmt)]
fn stmts(
    alloc: Global,
    scope: &Scope,
    inside: bool,
    stmts: &[Stmt],
    met: &mut Least,
) -> Result<(), OutOfMemory>
    ensures { OnOk result (Meets (flat_map (spec.stmt_faults (types_of scope.now) inside) stmts.now) met.old met.new) }
{
    for s in stmts {
        stmt(alloc, scope, inside, s, met)?;
    }
    Ok(())
}

/// No loop is around a body.
pub fn body(alloc: Global, scope: &Scope, body: &Body, met: &mut Least) -> Result<(), OutOfMemory>
    ensures { OnOk result (Meets (spec.body_faults (types_of scope.now) body.now) met.old met.new) }
{
    match body {
        Body::St(list) => stmts(alloc, scope, false, list.as_slice(), met),
    }
}
