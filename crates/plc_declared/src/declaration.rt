//! The names that a declaration declares.
ghost use Rattle.std.specs.Prelude.{◌≡◌, ◌++◌, IfOk, OnOk, map};
ghost use Rattle.plc_names.specs.Declarations as defined;

use crate::made::copied;
use plc_base::{Name, OutOfMemory, Place};
use plc_names::declarations::{Declaration, Written};
use plc_names::names::NameKind;
use plc_names::types::TypeId;
use plc_tree::tree::{Decl, Id, Pou, PouKind, Section, SectionKind, Spec, TypeDef, TypeWhat};
use sqlite_items::Items;
use std::alloc::Global;

// ---- types and kinds

fn written_spec(alloc: Global, next: u32, what: &Spec) -> Result<Written, OutOfMemory>
    ensures { IfOk result (λ written. written ≡ defined.written_spec next what.now) }
{
    match what {
        Spec::Named(id) => Ok(Written::ByName(copied(alloc, &id.name)?)),
        Spec::Sub { .. } => Ok(Written::Itself(TypeId::Sub(next))),
        Spec::Array { .. } => Ok(Written::Itself(TypeId::Array(next))),
    }
}

fn written_type(alloc: Global, next: u32, what: &TypeWhat) -> Result<Written, OutOfMemory>
    ensures { IfOk result (λ written. written ≡ defined.written_type next what.now) }
{
    match what {
        TypeWhat::Enum { .. } => Ok(Written::Itself(TypeId::Enum(next))),
        TypeWhat::Struct(_) => Ok(Written::Itself(TypeId::Struct(next))),
        TypeWhat::Spec { spec, .. } => written_spec(alloc, next, spec),
    }
}

fn kind_of_pou(kind: PouKind) -> NameKind
    ensures { result ≡ defined.kind_of_pou kind }
{
    match kind {
        PouKind::Func => NameKind::Func,
        PouKind::Block => NameKind::Block,
        PouKind::Prog => NameKind::Prog,
    }
}

fn kind_of_section(kind: SectionKind) -> NameKind
    ensures { result ≡ defined.kind_of_section kind }
{
    match kind {
        SectionKind::Input => NameKind::Input,
        SectionKind::Output => NameKind::Output,
        SectionKind::InOut => NameKind::InOut,
        SectionKind::Own => NameKind::Own,
        SectionKind::External => NameKind::External,
        SectionKind::Global => NameKind::Global,
    }
}

fn written_result(alloc: Global, of: &Option<Id>) -> Result<Written, OutOfMemory>
    ensures { IfOk result (λ written. written ≡ defined.written_result of.now) }
{
    match of {
        Some(id) => Ok(Written::ByName(copied(alloc, &id.name)?)),
        None => Ok(Written::Untyped),
    }
}

fn written_pou(alloc: Global, inner: u32, pou: &Pou) -> Result<Written, OutOfMemory>
    ensures { IfOk result (λ written. written ≡ defined.written_pou inner pou.now.kind pou.now.result) }
{
    match pou.kind {
        PouKind::Func => written_result(alloc, &pou.result),
        PouKind::Block => Ok(Written::Itself(TypeId::Block(inner))),
        PouKind::Prog => Ok(Written::Untyped),
    }
}

// ---- one name

fn value_declared(alloc: Global, own: bool, ty: u32, id: &Id) -> Result<Declaration, OutOfMemory>
    ensures { IfOk result (λ d. d ≡ defined.value_declared own ty id.now) }
{
    Ok(Declaration {
        name: copied(alloc, &id.name)?,
        at: id.at,
        own,
        kind: NameKind::Value,
        scope: 0,
        inner: None,
        constant: false,
        ty: Written::Itself(TypeId::Enum(ty)),
    })
}

/// The name of a type, where the next type that is made has this number.
pub fn type_declared(
    alloc: Global,
    own: bool,
    next: u32,
    def: &TypeDef,
) -> Result<Declaration, OutOfMemory>
    ensures { IfOk result (λ d. d ≡ defined.type_declared own next def.now) }
{
    Ok(Declaration {
        name: copied(alloc, &def.name)?,
        at: def.at,
        own,
        kind: NameKind::Named,
        scope: 0,
        inner: None,
        constant: false,
        ty: written_type(alloc, next, &def.what)?,
    })
}

/// The name of a program organisation unit.
pub fn pou_declared(
    alloc: Global,
    own: bool,
    inner: u32,
    pou: &Pou,
) -> Result<Declaration, OutOfMemory>
    ensures { IfOk result (λ d. d ≡ defined.pou_declared own inner pou.now) }
{
    Ok(Declaration {
        name: copied(alloc, &pou.name)?,
        at: pou.at,
        own,
        kind: kind_of_pou(pou.kind),
        scope: 0,
        inner: Some(inner),
        constant: false,
        ty: written_pou(alloc, inner, pou)?,
    })
}

/// Where a variable is declared: the number that the next type has that is made, its scope and its section.
#[derive(Clone, Copy)]
pub struct Spot<'a> {
    pub own: bool,
    pub next: u32,
    pub scope: u32,
    pub section: &'a Section,
}

fn variable_declared(
    alloc: Global,
    spot: Spot<'_>,
    what: &Spec,
    id: &Id,
) -> Result<Declaration, OutOfMemory>
    ensures { IfOk result (λ d. d ≡ defined.variable_declared spot.entry.own spot.entry.next spot.entry.scope spot.entry.section.now what.now id.now) }
{
    Ok(Declaration {
        name: copied(alloc, &id.name)?,
        at: id.at,
        own: spot.own,
        kind: kind_of_section(spot.section.kind),
        scope: spot.scope,
        inner: None,
        constant: spot.section.constant,
        ty: written_spec(alloc, spot.next, what)?,
    })
}

/// What opens a scope or stands in one.
#[derive(Clone, Copy)]
pub struct Standing {
    pub own: bool,
    pub kind: NameKind,
    pub scope: u32,
    pub inner: Option<u32>,
}

/// A name without a type.
pub fn untyped(
    alloc: Global,
    standing: Standing,
    name: &Name,
    at: Place,
) -> Result<Declaration, OutOfMemory>
    ensures { IfOk result (λ d. d ≡ defined.untyped standing.own standing.kind standing.scope standing.inner name.now at) }
{
    Ok(Declaration {
        name: copied(alloc, name)?,
        at,
        own: standing.own,
        kind: standing.kind,
        scope: standing.scope,
        inner: standing.inner,
        constant: false,
        ty: Written::Untyped,
    })
}

// ---- names in a row

fn declare_values(
    alloc: Global,
    own: bool,
    ty: u32,
    values: &[Id],
    names: &mut Items<Declaration>,
) -> Result<(), OutOfMemory>
    ensures { OnOk result (names.new ≡ names.old ++ map (defined.value_declared own ty) values.now) }
{
    for id in values {
        names.push(value_declared(alloc, own, ty, id)?)?;
    }
    Ok(())
}

/// The values of an enumeration, which has this number.
pub fn declare_values_of(
    alloc: Global,
    own: bool,
    next: u32,
    what: &TypeWhat,
    names: &mut Items<Declaration>,
) -> Result<(), OutOfMemory>
    ensures { OnOk result (names.new ≡ names.old ++ defined.values_declared own next what.now) }
{
    match what {
        TypeWhat::Enum { values, .. } => declare_values(alloc, own, next, values.as_slice(), names),
        TypeWhat::Struct(_) | TypeWhat::Spec { .. } => Ok(()),
    }
}

/// The variables of a declaration.
pub fn declare_variables(
    alloc: Global,
    spot: Spot<'_>,
    decl: &Decl,
    names: &mut Items<Declaration>,
) -> Result<(), OutOfMemory>
    ensures { OnOk result (names.new ≡ names.old ++ map (defined.variable_declared spot.entry.own spot.entry.next spot.entry.scope spot.entry.section.now decl.now.spec) decl.now.names) }
{
    for id in decl.names.as_slice() {
        names.push(variable_declared(alloc, spot, &decl.spec, id)?)?;
    }
    Ok(())
}
