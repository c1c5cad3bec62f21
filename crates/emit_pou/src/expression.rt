//! The C of expressions.
ghost use Rattle.std.specs.Prelude.{◌≡◌, IfOk};
ghost use Rattle.plc_tree.specs.Execution.{elem_of_node};
ghost use Rattle.plc_tree.specs.WellTyped.{AreNumbered};
ghost use Rattle.emit_pou.specs.Expressions as spec;

use crate::pou::elem_of;
use crate::variable::leaf;
use c_tree::tree::{CBin, CExpr, CNum, CPath};
use plc_base::{Elem, Name, OutOfMemory};
use plc_tree::tree::{BinOp, UnOp};
use plc_tree::typed::{TExpr, TVar};
use sqlite_items::{Boxed, Items};
use std::alloc::Global;

/// A path that is a name alone.
pub fn plain_path(alloc: Global, first: Name) -> CPath
    ensures { result ≡ spec.plain_path first }
{
    CPath {
        first,
        arrow: None,
        parts: Items::new(alloc),
    }
}

/// The elementary type of a node.
pub fn elem_of_node(expr: &TExpr) -> Elem
    ensures { result ≡ elem_of_node expr.now }
{
    match expr {
        TExpr::Number { ty, .. }
        | TExpr::Truth { ty, .. }
        | TExpr::Var { ty, .. }
        | TExpr::Paren { ty, .. }
        | TExpr::Unary { ty, .. }
        | TExpr::Binary { ty, .. } => elem_of(*ty),
    }
}

pub fn cast(alloc: Global, to: Elem, inner: CExpr) -> Result<CExpr, OutOfMemory>
    ensures { IfOk result (λ e. e ≡ CExpr.Cast to inner) }
{
    Ok(CExpr::Cast {
        to,
        inner: Boxed::new(alloc, inner)?,
    })
}

pub fn bin(alloc: Global, op: CBin, left: CExpr, right: CExpr) -> Result<CExpr, OutOfMemory>
    ensures { IfOk result (λ e. e ≡ CExpr.Bin op left right) }
{
    Ok(CExpr::Bin {
        op,
        left: Boxed::new(alloc, left)?,
        right: Boxed::new(alloc, right)?,
    })
}

/// A number of 64 bits.
fn wide(value: u64) -> CExpr
    ensures { result ≡ CExpr.Number value CNum.ULL }
{
    CExpr::Number {
        value,
        kind: CNum::ULL,
    }
}

/// A number of a type, by its 64 bits.
pub fn literal(alloc: Global, ty: Elem, value: i128) -> Result<CExpr, OutOfMemory>
    ensures { IfOk result (λ e. e ≡ spec.literal ty value) }
{
    cast(alloc, ty, wide(value.rem_euclid(1 << 64) as u64))
}

/// An operator on 64 bits without a sign, and what is left of its result in the type.
pub fn in_64_bits(
    alloc: Global,
    ty: Elem,
    op: CBin,
    left: CExpr,
    right: CExpr,
) -> Result<CExpr, OutOfMemory>
    ensures { IfOk result (λ e. e ≡ spec.in_64_bits ty (CExpr.Bin op) left right) }
{
    let left = cast(alloc, Elem::Ulint, left)?;
    let right = cast(alloc, Elem::Ulint, right)?;
    let whole = bin(alloc, op, left, right)?;
    cast(alloc, ty, whole)
}

/// An operator with a result of this type; no typed body has a division yet.
fn operation(
    alloc: Global,
    op: BinOp,
    ty: Elem,
    left: CExpr,
    right: CExpr,
) -> Result<CExpr, OutOfMemory>
    ensures { IfOk result (λ e. e ≡ spec.operation op ty left right) }
{
    match op {
        BinOp::Or => bin(alloc, CBin::Or, left, right),
        BinOp::Xor => bin(alloc, CBin::Xor, left, right),
        BinOp::And => bin(alloc, CBin::And, left, right),
        BinOp::Eq => bin(alloc, CBin::Eq, left, right),
        BinOp::Ne => bin(alloc, CBin::Ne, left, right),
        BinOp::Lt => bin(alloc, CBin::Lt, left, right),
        BinOp::Gt => bin(alloc, CBin::Gt, left, right),
        BinOp::Le => bin(alloc, CBin::Le, left, right),
        BinOp::Ge => bin(alloc, CBin::Ge, left, right),
        BinOp::Add => in_64_bits(alloc, ty, CBin::Add, left, right),
        BinOp::Sub => in_64_bits(alloc, ty, CBin::Sub, left, right),
        BinOp::Mul => in_64_bits(alloc, ty, CBin::Mul, left, right),
        BinOp::Div | BinOp::Rem => Ok(left),
    }
}

/// What an operand is taken from: 0, or -1, in which all bits are set.
fn taken_from(op: UnOp) -> u64
    ensures { result ≡ spec.taken_from op }
{
    match op {
        UnOp::Minus => 0,
        UnOp::Not => u64::MAX,
    }
}

/// An operator before one operand.
fn operation_of_one(alloc: Global, op: UnOp, ty: Elem, inner: CExpr) -> Result<CExpr, OutOfMemory>
    ensures { IfOk result (λ e. e ≡ spec.operation_of_one op ty inner) }
{
    let inner = cast(alloc, Elem::Ulint, inner)?;
    let whole = bin(alloc, CBin::Sub, wide(taken_from(op)), inner)?;
    cast(alloc, ty, whole)
}

/// The C of an expression: of the type to which its type is promoted, and of the same number.
#[cycle(expr)]
#[tactic(auto, using(crate::proofs::EmittedViews::expressions))]
pub fn expression(alloc: Global, vars: &[TVar], expr: &TExpr) -> Result<CExpr, OutOfMemory>
    requires { AreNumbered vars.now }
    ensures { IfOk result (λ e. e ≡ spec.c_expr vars.now expr.now) }
{
    match expr {
        TExpr::Number { value, ty } => literal(alloc, elem_of(*ty), *value),
        TExpr::Truth { value, ty } => literal(alloc, elem_of(*ty), i128::from(*value)),
        TExpr::Var { path, .. } => Ok(CExpr::GetVar(leaf(alloc, vars, path.first)?)),
        TExpr::Paren { inner, .. } => expression(alloc, vars, inner.get()),
        TExpr::Unary { op, ty, inner } => {
            let inner = expression(alloc, vars, inner.get())?;
            operation_of_one(alloc, *op, elem_of(*ty), inner)
        }
        TExpr::Binary {
            op,
            ty,
            left,
            right,
        } => {
            let left = expression(alloc, vars, left.get())?;
            let right = expression(alloc, vars, right.get())?;
            operation(alloc, *op, elem_of(*ty), left, right)
        }
    }
}
