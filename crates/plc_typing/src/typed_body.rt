//! The typed bodies of a source without broken uses.
ghost use Rattle.std.specs.Prelude.{◌≡◌, ◌<◌, ◌^◌, IfOk, map, length};
ghost use Rattle.plc_typing.specs.Scope.{types_of};
ghost use Rattle.plc_typing.specs.Typing as spec;
ghost use Rattle.plc_typing.specs.TypedParts.{typed_set, typed_for, typed_arm, typed_choice};

use crate::numbers::Numbers;
use crate::plain::{side_of, type_of_one};
use crate::scope::Scope;
use plc_base::{Elem, OutOfMemory};
use plc_tree::tree::{Arm, BinOp, Body, Choice, Expr, Label, Path, Stmt, UnOp};
use plc_tree::typed::{TArm, TBody, TChoice, TExpr, TLabel, TPath, TStmt, TypeId};
use sqlite_items::{Boxed, Items};
use std::alloc::Global;

// ---- expressions

fn typed_path(alloc: Global, numbers: &Numbers, path: &Path) -> Result<TPath, OutOfMemory>
    requires { length numbers.now < 2 ^ 32 }
    ensures { IfOk result (λ p. p ≡ spec.typed_path numbers.now path.now) }
{
    Ok(TPath {
        first: numbers.of(alloc, &path.first)?,
    })
}

/// A number of no meaning in the place of what isn't built.
fn nothing(want: Elem) -> TExpr
    ensures { result ≡ spec.nothing want }
{
    TExpr::Number {
        value: 0,
        ty: TypeId::Elem(want),
    }
}

fn paren(alloc: Global, ty: TypeId, inner: TExpr) -> Result<TExpr, OutOfMemory>
    ensures { IfOk result (λ e. e ≡ TExpr.Paren ty inner) }
{
    Ok(TExpr::Paren {
        ty,
        inner: Boxed::new(alloc, inner)?,
    })
}

fn unary(alloc: Global, op: UnOp, ty: TypeId, inner: TExpr) -> Result<TExpr, OutOfMemory>
    ensures { IfOk result (λ e. e ≡ TExpr.Unary op ty inner) }
{
    Ok(TExpr::Unary {
        op,
        ty,
        inner: Boxed::new(alloc, inner)?,
    })
}

fn binary(
    alloc: Global,
    op: BinOp,
    ty: TypeId,
    left: TExpr,
    right: TExpr,
) -> Result<TExpr, OutOfMemory>
    ensures { IfOk result (λ e. e ≡ TExpr.Binary op ty left right) }
{
    Ok(TExpr::Binary {
        op,
        ty,
        left: Boxed::new(alloc, left)?,
        right: Boxed::new(alloc, right)?,
    })
}

/// An expression where this type is wanted.
#[cycle(expr)]
#[tactic(auto, using(crate::proofs::TypingViews::expressions))]
fn typed_expr(
    alloc: Global,
    numbers: &Numbers,
    want: Elem,
    expr: &Expr,
) -> Result<TExpr, OutOfMemory>
    requires { length numbers.now < 2 ^ 32 }
    ensures { IfOk result (λ e. e ≡ spec.typed_expr numbers.now want expr.now) }
{
    let ty = TypeId::Elem(want);
    match expr {
        Expr::Number { value, .. } => Ok(TExpr::Number { value: *value, ty }),
        Expr::Truth { value, .. } => Ok(TExpr::Truth { value: *value, ty }),
        Expr::Span { .. } | Expr::Value { .. } | Expr::Call { .. } => Ok(nothing(want)),
        Expr::Var(variable) => {
            let path = typed_path(alloc, numbers, variable)?;
            Ok(TExpr::Var { path, ty })
        }
        Expr::Paren { inner, .. } => {
            let inner = typed_expr(alloc, numbers, want, inner.get())?;
            paren(alloc, ty, inner)
        }
        Expr::Unary { op, inner, .. } => {
            let inner = typed_expr(alloc, numbers, type_of_one(*op), inner.get())?;
            unary(alloc, *op, ty, inner)
        }
        Expr::Binary {
            op,
            left,
            right,
            ..
        } => {
            let left = typed_expr(alloc, numbers, side_of(*op), left.get())?;
            let right = typed_expr(alloc, numbers, side_of(*op), right.get())?;
            binary(alloc, *op, ty, left, right)
        }
    }
}

fn typed_if_any(
    alloc: Global,
    numbers: &Numbers,
    want: Elem,
    expr: &Option<Expr>,
) -> Result<Option<TExpr>, OutOfMemory>
    requires { length numbers.now < 2 ^ 32 }
    ensures { IfOk result (λ e. e ≡ spec.typed_if_any numbers.now want expr.now) }
{
    match expr {
        None => Ok(None),
        Some(expr) => Ok(Some(typed_expr(alloc, numbers, want, expr)?)),
    }
}

// ---- statements

fn typed_label(label: &Label) -> TLabel
    ensures { result ≡ spec.typed_label label.now }
{
    match label {
        Label::Range { low, high, .. } => TLabel::Range {
            low: *low,
            high: *high,
        },
        Label::Value { .. } => TLabel::Range { low: 0, high: 0 },
    }
}

fn typed_labels(alloc: Global, labels: &[Label]) -> Result<Items<TLabel>, OutOfMemory>
    ensures { IfOk result (λ ls. ls ≡ map spec.typed_label labels.now) }
{
    let mut items = Items::new(alloc);
    for label in labels {
        items.push(typed_label(label))?;
    }
    Ok(items)
}

/// The value of an assignment is wanted of the type of its target.
fn typed_set(
    alloc: Global,
    numbers: &Numbers,
    scope: &Scope,
    to: &Path,
    from: &Expr,
) -> Result<TStmt, OutOfMemory>
    requires { length numbers.now < 2 ^ 32 }
    ensures { IfOk result (λ s. s ≡ typed_set numbers.now (types_of scope.now) to.now from.now) }
{
    let want = scope.elem_of(alloc, &to.first)?.unwrap_or(Elem::Int);
    Ok(TStmt::Set {
        to: typed_path(alloc, numbers, to)?,
        from: typed_expr(alloc, numbers, want, from)?,
    })
}

/// A FOR of these typed statements.
fn typed_for(
    alloc: Global,
    numbers: &Numbers,
    var: &Path,
    start: &Expr,
    limit: &Expr,
    step: &Option<Expr>,
    body: Items<TStmt>,
) -> Result<TStmt, OutOfMemory>
    requires { length numbers.now < 2 ^ 32 }
    ensures { IfOk result (λ s. s ≡ typed_for numbers.now var.now start.now limit.now step.now body) }
{
    Ok(TStmt::For {
        var: typed_path(alloc, numbers, var)?,
        start: typed_expr(alloc, numbers, Elem::Int, start)?,
        limit: typed_expr(alloc, numbers, Elem::Int, limit)?,
        step: typed_if_any(alloc, numbers, Elem::Int, step)?,
        body,
    })
}

#[cycle(stmt)]
#[tactic(auto, using(crate::proofs::TypingViews::statements))]
fn typed_arm(
    alloc: Global,
    numbers: &Numbers,
    scope: &Scope,
    arm: &Arm,
) -> Result<TArm, OutOfMemory>
    requires { length numbers.now < 2 ^ 32 }
    ensures { IfOk result (λ a. a ≡ typed_arm numbers.now (types_of scope.now) arm.now) }
{
    Ok(TArm {
        test: typed_expr(alloc, numbers, Elem::Bool, &arm.test)?,
        body: typed_stmts(alloc, numbers, scope, arm.body.as_slice())?,
    })
}

#[cycle(stmt)]
fn typed_arms(
    alloc: Global,
    numbers: &Numbers,
    scope: &Scope,
    arms: &[Arm],
) -> Result<Items<TArm>, OutOfMemory>
    requires { length numbers.now < 2 ^ 32 }
    ensures { IfOk result (λ items. items ≡ map (typed_arm numbers.now (types_of scope.now)) arms.now) }
{
    let mut items = Items::new(alloc);
    for arm in arms {
        items.push(typed_arm(alloc, numbers, scope, arm)?)?;
    }
    Ok(items)
}

#[cycle(stmt)]
#[tactic(auto, using(crate::proofs::TypingViews::statements))]
fn typed_choice(
    alloc: Global,
    numbers: &Numbers,
    scope: &Scope,
    choice: &Choice,
) -> Result<TChoice, OutOfMemory>
    requires { length numbers.now < 2 ^ 32 }
    ensures { IfOk result (λ c. c ≡ typed_choice numbers.now (types_of scope.now) choice.now) }
{
    Ok(TChoice {
        labels: typed_labels(alloc, choice.labels.as_slice())?,
        body: typed_stmts(alloc, numbers, scope, choice.body.as_slice())?,
    })
}

#[cycle(stmt)]
fn typed_choices(
    alloc: Global,
    numbers: &Numbers,
    scope: &Scope,
    choices: &[Choice],
) -> Result<Items<TChoice>, OutOfMemory>
    requires { length numbers.now < 2 ^ 32 }
    ensures { IfOk result (λ items. items ≡ map (typed_choice numbers.now (types_of scope.now)) choices.now) }
{
    let mut items = Items::new(alloc);
    for choice in choices {
        items.push(typed_choice(alloc, numbers, scope, choice)?)?;
    }
    Ok(items)
}

#[cycle(stmt)]
#[tactic(auto, using(crate::proofs::TypingViews::statements))]
fn typed_stmt(
    alloc: Global,
    numbers: &Numbers,
    scope: &Scope,
    stmt: &Stmt,
) -> Result<TStmt, OutOfMemory>
    requires { length numbers.now < 2 ^ 32 }
    ensures { IfOk result (λ s. s ≡ spec.typed_stmt numbers.now (types_of scope.now) stmt.now) }
{
    match stmt {
        Stmt::Empty | Stmt::Call { .. } => Ok(TStmt::Empty),
        Stmt::Exit(_) => Ok(TStmt::Exit),
        Stmt::Return(_) => Ok(TStmt::Return),
        Stmt::Set { to, from } => typed_set(alloc, numbers, scope, to, from),
        Stmt::If { arms, other } => Ok(TStmt::If {
            arms: typed_arms(alloc, numbers, scope, arms.as_slice())?,
            other: typed_stmts(alloc, numbers, scope, other.as_slice())?,
        }),
        Stmt::Case { pick, arms, other } => Ok(TStmt::Case {
            pick: typed_expr(alloc, numbers, Elem::Int, pick)?,
            arms: typed_choices(alloc, numbers, scope, arms.as_slice())?,
            other: typed_stmts(alloc, numbers, scope, other.as_slice())?,
        }),
        Stmt::For {
            var,
            start,
            limit,
            step,
            body,
        } => {
            let body = typed_stmts(alloc, numbers, scope, body.as_slice())?;
            typed_for(alloc, numbers, var, start, limit, step, body)
        }
        Stmt::While { test, body } => Ok(TStmt::While {
            test: typed_expr(alloc, numbers, Elem::Bool, test)?,
            body: typed_stmts(alloc, numbers, scope, body.as_slice())?,
        }),
        Stmt::Repeat { body, test } => Ok(TStmt::Repeat {
            body: typed_stmts(alloc, numbers, scope, body.as_slice())?,
            test: typed_expr(alloc, numbers, Elem::Bool, test)?,
        }),
    }
}

#[cycle(stmt)]
fn typed_stmts(
    alloc: Global,
    numbers: &Numbers,
    scope: &Scope,
    stmts: &[Stmt],
) -> Result<Items<TStmt>, OutOfMemory>
    requires { length numbers.now < 2 ^ 32 }
    ensures { IfOk result (λ ss. ss ≡ map (spec.typed_stmt numbers.now (types_of scope.now)) stmts.now) }
{
    let mut items = Items::new(alloc);
    for stmt in stmts {
        items.push(typed_stmt(alloc, numbers, scope, stmt)?)?;
    }
    Ok(items)
}

/// The typed body of a program organisation unit.
pub fn typed_body(
    alloc: Global,
    numbers: &Numbers,
    scope: &Scope,
    body: &Body,
) -> Result<TBody, OutOfMemory>
    requires { length numbers.now < 2 ^ 32 }
    ensures { IfOk result (λ b. b ≡ spec.typed_of_body numbers.now (types_of scope.now) body.now) }
{
    match body {
        Body::St(list) => {
            let stmts = typed_stmts(alloc, numbers, scope, list.as_slice())?;
            Ok(TBody::St(stmts))
        }
    }
}
