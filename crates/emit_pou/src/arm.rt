//! The arms of IF and CASE: one is picked, and leaves out those behind it.
ghost use Rattle.std.specs.Prelude.{◌≡◌, ◌++◌, ◌∷◌, [], IfOk, None, map};
ghost use Rattle.emit_pou.specs.Expressions as expr;
ghost use Rattle.emit_pou.specs.Statements as spec;

use crate::c_name::{CASE, PICK};
use crate::expression::{bin, cast, literal, plain_path};
use c_tree::tree::{CBin, CExpr, CNum, CStmt};
use plc_base::{Elem, Name, OutOfMemory};
use plc_tree::typed::TLabel;
use sqlite_items::Items;
use std::alloc::Global;

/// A plain number of the C.
pub fn small(value: u64) -> CExpr
    ensures { result ≡ spec.small value }
{
    CExpr::Number {
        value,
        kind: CNum::Int,
    }
}

/// One statement.
pub fn one(alloc: Global, stmt: CStmt) -> Result<Items<CStmt>, OutOfMemory>
    ensures { IfOk result (λ items. items ≡ stmt ∷ []) }
{
    let mut items = Items::new(alloc);
    items.push(stmt)?;
    Ok(items)
}

/// A local gets a value.
pub fn set_local(alloc: Global, name: &[u8], from: CExpr) -> Result<CStmt, OutOfMemory>
    ensures { IfOk result (λ stmt. stmt ≡ spec.set_local name.now from) }
{
    let to = plain_path(alloc, Name::new(alloc, name)?);
    Ok(CStmt::Set { to, from })
}

/// What a local holds, as it is.
fn local(alloc: Global, name: &[u8]) -> Result<CExpr, OutOfMemory>
    ensures { IfOk result (λ e. e ≡ CExpr.Path (expr.plain_path name.now)) }
{
    Ok(CExpr::Path(plain_path(alloc, Name::new(alloc, name)?)))
}

/// What a local of 64 bits holds, as a number of a type.
pub fn held(alloc: Global, ty: Elem, name: &[u8]) -> Result<CExpr, OutOfMemory>
    ensures { IfOk result (λ e. e ≡ spec.held ty name.now) }
{
    cast(alloc, ty, local(alloc, name)?)
}

/// Statements that run where this was picked.
pub fn where_picked(alloc: Global, value: u64, body: Items<CStmt>) -> Result<CStmt, OutOfMemory>
    ensures { IfOk result (λ stmt. stmt ≡ spec.where_picked value body) }
{
    Ok(CStmt::If {
        test: bin(alloc, CBin::Eq, local(alloc, PICK)?, small(value))?,
        body,
        other: None,
    })
}

pub fn pick(alloc: Global, value: u64) -> Result<CStmt, OutOfMemory>
    ensures { IfOk result (λ stmt. stmt ≡ spec.pick value) }
{
    set_local(alloc, PICK, small(value))
}

/// The statements of an arm, which leaves the others out.
fn arm_body(alloc: Global, mut body: Items<CStmt>) -> Result<Items<CStmt>, OutOfMemory>
    ensures { IfOk result (λ items. items ≡ spec.arm_body body) }
{
    body.push(pick(alloc, 1)?)?;
    Ok(body)
}

/// A test, and what is done where it holds and none was picked before.
fn tested(alloc: Global, test: CExpr, body: Items<CStmt>) -> Result<CStmt, OutOfMemory>
    ensures { IfOk result (λ stmt. stmt ≡ spec.where_picked 0 (CStmt.If test body None ∷ [])) }
{
    let stmt = CStmt::If {
        test,
        body,
        other: None,
    };
    where_picked(alloc, 0, one(alloc, stmt)?)
}

/// An arm of an IF.
pub fn arm(alloc: Global, test: CExpr, body: Items<CStmt>) -> Result<CStmt, OutOfMemory>
    ensures { IfOk result (λ stmt. stmt ≡ spec.arm test body) }
{
    tested(alloc, test, arm_body(alloc, body)?)
}

/// Whether the number that a CASE looks for is from the first to the last of a label.
fn label_test(alloc: Global, ty: Elem, label: &TLabel) -> Result<CExpr, OutOfMemory>
    ensures { IfOk result (λ e. e ≡ spec.label_test ty label.now) }
{
    match label {
        TLabel::Range { low, high } => {
            let low = literal(alloc, ty, *low)?;
            let high = literal(alloc, ty, *high)?;
            let above = bin(alloc, CBin::Le, low, held(alloc, ty, CASE)?)?;
            let below = bin(alloc, CBin::Le, held(alloc, ty, CASE)?, high)?;
            bin(alloc, CBin::And, above, below)
        }
    }
}

fn label(alloc: Global, ty: Elem, label: &TLabel) -> Result<CStmt, OutOfMemory>
    ensures { IfOk result (λ stmt. stmt ≡ spec.label ty label.now) }
{
    let test = label_test(alloc, ty, label)?;
    tested(alloc, test, one(alloc, pick(alloc, 2)?)?)
}

fn labels(alloc: Global, ty: Elem, labels: &[TLabel]) -> Result<Items<CStmt>, OutOfMemory>
    ensures { IfOk result (λ items. items ≡ map (spec.label ty) labels.now) }
{
    let mut items = Items::new(alloc);
    for l in labels {
        items.push(label(alloc, ty, l)?)?;
    }
    Ok(items)
}

/// An arm of a CASE.
pub fn choice(
    alloc: Global,
    ty: Elem,
    list: &[TLabel],
    body: Items<CStmt>,
) -> Result<Items<CStmt>, OutOfMemory>
    ensures { IfOk result (λ items. items ≡ spec.choice ty list.now body) }
{
    let mut items = labels(alloc, ty, list)?;
    items.push(where_picked(alloc, 2, arm_body(alloc, body)?)?)?;
    Ok(items)
}

/// The arms, and the statements that run where none was picked.
pub fn dispatch(
    alloc: Global,
    arms: Items<CStmt>,
    other: Items<CStmt>,
) -> Result<Items<CStmt>, OutOfMemory>
    ensures { IfOk result (λ items. items ≡ spec.pick 0 ∷ (arms ++ (spec.where_picked 0 other ∷ []))) }
{
    let mut items = one(alloc, pick(alloc, 0)?)?;
    items.append(arms)?;
    items.push(where_picked(alloc, 0, other)?)?;
    Ok(items)
}
