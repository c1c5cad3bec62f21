//! The plain expressions, those of INT and BOOL that are built so far, and their types.
ghost use Rattle.std.specs.Prelude.{◌≡◌, IfOk, OnOk, is_some, None, true, false, ◌&&◌};
ghost use Rattle.std.specs.List.{flat_map};
ghost use Rattle.std.specs.Option.{option_map_or};
ghost use Rattle.plc_base.specs.declared.elem.Elem.TheVariants.{Int};
ghost use Rattle.plc_base.specs.Least.{Meets};
ghost use Rattle.plc_tree.specs.declared.tree.Expr.{Var};
ghost use Rattle.plc_typing.specs.Nodes.{known, of_unary, of_binary, unary_faults, binary_faults};
ghost use Rattle.plc_typing.specs.Plain as spec;
ghost use Rattle.plc_typing.specs.Scope.{is_elem, types_of};
ghost use Rattle.plc_typing.specs.Uses.{suits, part_faults, path_faults, unplain, node_faults, place_of_expr};

use crate::constants::{folds, folds_one};
use crate::one_use::suits;
use crate::scope::{Scope, is_elem};
use plc_base::{Elem, Least, OutOfMemory, Place, high, low};
use plc_tree::tree::{BinOp, Expr, Part, Path, UnOp};
use std::alloc::Global;

// ---- operators

/// Whether a number is one of INT.
pub fn is_in_int(value: i128) -> bool
    ensures { result ≡ spec.is_in_int value }
{
    low(Elem::Int) <= value && value <= high(Elem::Int)
}

/// The type of the sides of an operator.
pub fn side_of(op: BinOp) -> Elem
    ensures { result ≡ spec.side_of op }
{
    match op {
        BinOp::Or | BinOp::Xor | BinOp::And => Elem::Bool,
        BinOp::Eq | BinOp::Ne | BinOp::Lt | BinOp::Gt | BinOp::Le | BinOp::Ge => Elem::Int,
        BinOp::Add | BinOp::Sub | BinOp::Mul | BinOp::Div | BinOp::Rem => Elem::Int,
    }
}

/// The type of its result.
fn result_of(op: BinOp) -> Elem
    ensures { result ≡ spec.result_of op }
{
    match op {
        BinOp::Or | BinOp::Xor | BinOp::And => Elem::Bool,
        BinOp::Eq | BinOp::Ne | BinOp::Lt | BinOp::Gt | BinOp::Le | BinOp::Ge => Elem::Bool,
        BinOp::Add | BinOp::Sub | BinOp::Mul | BinOp::Div | BinOp::Rem => Elem::Int,
    }
}

/// Division isn't built yet.
fn is_built(op: BinOp) -> bool
    ensures { result ≡ spec.is_built op }
{
    match op {
        BinOp::Or | BinOp::Xor | BinOp::And => true,
        BinOp::Eq | BinOp::Ne | BinOp::Lt | BinOp::Gt | BinOp::Le | BinOp::Ge => true,
        BinOp::Add | BinOp::Sub | BinOp::Mul => true,
        BinOp::Div | BinOp::Rem => false,
    }
}

/// The type of the operand and of the result.
pub fn type_of_one(op: UnOp) -> Elem
    ensures { result ≡ spec.type_of_one op }
{
    match op {
        UnOp::Minus => Elem::Int,
        UnOp::Not => Elem::Bool,
    }
}

// ---- the types of plain expressions

/// What is known of an expression: its type, where it is plain, and whether it has a number by itself.
#[derive(Clone, Copy)]
pub struct Plain {
    pub elem: Option<Elem>,
    pub has_const: bool,
}

/// The type before a number of INT is INT, where there is one.
pub fn is_int_or_none(prefix: Option<Elem>) -> bool
    ensures { result ≡ option_map_or (is_elem Int) prefix true }
{
    match prefix {
        Some(elem) => is_elem(Elem::Int, elem),
        None => true,
    }
}

fn plain_number(value: i128, prefix: Option<Elem>) -> Option<Elem>
    ensures { result ≡ spec.plain_number value prefix }
{
    if is_int_or_none(prefix) && is_in_int(value) {
        Some(Elem::Int)
    } else {
        None
    }
}

/// Whether one is of a type.
pub fn is_of(want: Elem, elem: Option<Elem>) -> bool
    ensures { result ≡ spec.is_of want elem }
{
    match elem {
        Some(elem) => is_elem(want, elem),
        None => false,
    }
}

fn plain_unary(op: UnOp, inner: Plain) -> Option<Elem>
    ensures { result ≡ spec.plain_unary op inner.has_const inner.elem }
{
    if !inner.has_const && is_of(type_of_one(op), inner.elem) {
        Some(type_of_one(op))
    } else {
        None
    }
}

fn plain_binary(op: BinOp, left: Plain, right: Plain) -> Option<Elem>
    ensures { result ≡ spec.plain_binary op (left.has_const && right.has_const) left.elem right.elem }
{
    let numbers = left.has_const && right.has_const;
    let sides = is_of(side_of(op), left.elem) && is_of(side_of(op), right.elem);
    if !numbers && is_built(op) && sides {
        Some(result_of(op))
    } else {
        None
    }
}

/// An operator is plain where its parts are.
fn node(parts: bool, whole: Option<Elem>, at: Place, met: &mut Least)
    ensures { Meets (unplain parts whole at) met.old met.new }
{
    suits(!parts || whole.is_some(), at, met);
}

// ---- variables

fn place_of_part(part: &Part) -> Place
    ensures { part_faults part.now ≡ suits false result }
{
    match part {
        Part::Field { dot, .. } => *dot,
        Part::Index { at, .. } => *at,
    }
}

/// Indices and fields aren't built yet.
pub fn no_parts(parts: &[Part], met: &mut Least)
    ensures { Meets (flat_map part_faults parts.now) met.old met.new }
{
    for part in parts {
        suits(false, place_of_part(part), met);
    }
}

/// A variable that is declared, and its type.
pub fn path(
    alloc: Global,
    scope: &Scope,
    path: &Path,
    met: &mut Least,
) -> Result<Option<Elem>, OutOfMemory>
    ensures elem { IfOk result (λ elem. elem ≡ types_of scope.now path.now.first) }
    ensures met { OnOk result (Meets (path_faults (types_of scope.now) path.now) met.old met.new) }
{
    let elem = scope.elem_of(alloc, &path.first)?;
    suits(elem.is_some(), path.at, met);
    no_parts(path.parts.as_slice(), met);
    Ok(elem)
}

// ---- each node of an expression

/// A number by itself.
fn number(value: i128, prefix: Option<Elem>, at: Place, met: &mut Least) -> Plain
    ensures known { result ≡ record { elem = spec.plain_number value prefix; has_const = true } }
    ensures met { Meets (suits (is_some (spec.plain_number value prefix)) at) met.old met.new }
{
    let elem = plain_number(value, prefix);
    suits(elem.is_some(), at, met);
    Plain {
        elem,
        has_const: true,
    }
}

/// What isn't built yet.
fn unbuilt(at: Place, met: &mut Least) -> Plain
    ensures known { result ≡ record { elem = None; has_const = false } }
    ensures met { Meets (suits false at) met.old met.new }
{
    suits(false, at, met);
    Plain {
        elem: None,
        has_const: false,
    }
}

fn variable(
    alloc: Global,
    scope: &Scope,
    variable: &Path,
    met: &mut Least,
) -> Result<Plain, OutOfMemory>
    ensures known { IfOk result (λ p. p ≡ known (types_of scope.now) (Var variable.now)) }
    ensures met { OnOk result (Meets (node_faults (types_of scope.now) (Var variable.now)) met.old met.new) }
{
    let elem = path(alloc, scope, variable, met)?;
    let bare = variable.parts.as_slice().is_empty();
    Ok(Plain {
        elem: if bare { elem } else { None },
        has_const: false,
    })
}

fn unary(op: UnOp, at: Place, inner: Plain, met: &mut Least) -> Plain
    ensures known { result ≡ of_unary op inner }
    ensures met { Meets (unary_faults op at inner) met.old met.new }
{
    let elem = plain_unary(op, inner);
    node(inner.elem.is_some(), elem, at, met);
    Plain {
        elem,
        has_const: folds_one(op) && inner.has_const,
    }
}

fn binary(op: BinOp, at: Place, left: Plain, right: Plain, met: &mut Least) -> Plain
    ensures known { result ≡ of_binary op left right }
    ensures met { Meets (binary_faults op at left right) met.old met.new }
{
    let elem = plain_binary(op, left, right);
    node(left.elem.is_some() && right.elem.is_some(), elem, at, met);
    Plain {
        elem,
        has_const: folds(op) && (left.has_const && right.has_const),
    }
}

/// Each node is plain, where its parts are.
#[cycle(expr)]
pub fn plain_node(
    alloc: Global,
    scope: &Scope,
    expr: &Expr,
    met: &mut Least,
) -> Result<Plain, OutOfMemory>
    ensures known { IfOk result (λ p. p ≡ known (types_of scope.now) expr.now) }
    ensures met { OnOk result (Meets (node_faults (types_of scope.now) expr.now) met.old met.new) }
{
    match expr {
        Expr::Number { value, want, at } => Ok(number(*value, *want, *at, met)),
        Expr::Truth { .. } => Ok(Plain {
            elem: Some(Elem::Bool),
            has_const: false,
        }),
        Expr::Span { at, .. } | Expr::Value { at, .. } | Expr::Call { at, .. } => {
            Ok(unbuilt(*at, met))
        }
        Expr::Var(path) => variable(alloc, scope, path, met),
        Expr::Paren { inner, .. } => plain_node(alloc, scope, inner.get(), met),
        Expr::Unary { op, at, inner } => {
            let inner = plain_node(alloc, scope, inner.get(), met)?;
            Ok(unary(*op, *at, inner, met))
        }
        Expr::Binary {
            op,
            at,
            left,
            right,
        } => {
            let left = plain_node(alloc, scope, left.get(), met)?;
            let right = plain_node(alloc, scope, right.get(), met)?;
            Ok(binary(*op, *at, left, right, met))
        }
    }
}

/// Where an expression stands: a call at its name, an operator at itself, another one at its first token.
pub fn place_of_expr(expr: &Expr) -> Place
    ensures { result ≡ place_of_expr expr.now }
{
    match expr {
        Expr::Number { at, .. } | Expr::Truth { at, .. } | Expr::Span { at, .. } => *at,
        Expr::Value { at, .. } | Expr::Call { at, .. } => *at,
        Expr::Paren { at, .. } | Expr::Unary { at, .. } | Expr::Binary { at, .. } => *at,
        Expr::Var(path) => path.at,
    }
}
