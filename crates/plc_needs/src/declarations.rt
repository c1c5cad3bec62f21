//! What declarations need: the types that are named in them, and the owners of values in what they start at.
ghost use Rattle.std.specs.Prelude.{◌≡◌, OnOk, [], ◌∷◌};
ghost use Rattle.std.specs.List.{flat_map};
ghost use Rattle.plc_names.specs.Needs as spec;
ghost use Rattle.plc_needs.specs.Parts.{field_owners};
ghost use Rattle.plc_needs.specs.Row.{Adds};

use crate::bodies::body;
use crate::name::need;
use crate::own::Own;
use plc_base::OutOfMemory;
use plc_scopes::Scopes;
use plc_tree::tree::{Decl, Id, Init, InitPart, Item, Member, Pou, Section, Spec, TypeWhat};
use std::alloc::Global;

// ---- initial values

#[cycle(init)]
fn init(scopes: &Scopes, init: &Init, row: &mut Vec<u32>) -> Result<(), OutOfMemory>
    ensures { OnOk result (Adds scopes.now.declared (spec.init_owners init.now) row.old.items row.new.items) }
{
    match init {
        Init::Number { .. } | Init::Truth { .. } | Init::Span { .. } | Init::Named(_) => Ok(()),
        Init::Value { owner, .. } => need(scopes, owner, row),
        Init::List { items, .. } => elements(scopes, items.as_slice(), row),
        Init::Struct { parts, .. } => fields(scopes, parts.as_slice(), row),
    }
}

#[cycle(init)]
fn element(scopes: &Scopes, item: &Item, row: &mut Vec<u32>) -> Result<(), OutOfMemory>
    ensures { OnOk result (Adds scopes.now.declared (spec.element_owners item.now) row.old.items row.new.items) }
{
    match item {
        Item::One(start) => init(scopes, start, row),
        Item::Many { init, .. } => match init {
            Some(start) => self::init(scopes, start, row),
            None => Ok(()),
        },
    }
}

#[cycle(init)]
fn elements(scopes: &Scopes, items: &[Item], row: &mut Vec<u32>) -> Result<(), OutOfMemory>
    ensures { OnOk result (Adds scopes.now.declared (flat_map spec.element_owners items.now) row.old.items row.new.items) }
{
    for item in items {
        element(scopes, item, row)?;
    }
    Ok(())
}

#[cycle(init)]
fn fields(scopes: &Scopes, parts: &[InitPart], row: &mut Vec<u32>) -> Result<(), OutOfMemory>
    ensures { OnOk result (Adds scopes.now.declared (flat_map field_owners parts.now) row.old.items row.new.items) }
{
    for part in parts {
        init(scopes, &part.init, row)?;
    }
    Ok(())
}

fn start(scopes: &Scopes, start: &Option<Init>, row: &mut Vec<u32>) -> Result<(), OutOfMemory>
    ensures { OnOk result (Adds scopes.now.declared (spec.start_owners start.now) row.old.items row.new.items) }
{
    match start {
        Some(start) => init(scopes, start, row),
        None => Ok(()),
    }
}

// ---- types

/// The type that is named: of an array its element's.
fn spec_type(what: &Spec) -> &Id
    ensures { result.now ≡ spec.spec_type what.now }
{
    match what {
        Spec::Named(id) => id,
        Spec::Sub { base, .. } => base,
        Spec::Array { element, .. } => element,
    }
}

/// A type that is named, wherever it is.
fn named(scopes: &Scopes, id: &Id, row: &mut Vec<u32>) -> Result<(), OutOfMemory>
    ensures { OnOk result (Adds scopes.now.declared (id.now ∷ []) row.old.items row.new.items) }
{
    need(scopes, &id.name, row)
}

fn spec(
    scopes: &Scopes,
    what: &Spec,
    init: &Option<Init>,
    row: &mut Vec<u32>,
) -> Result<(), OutOfMemory>
    ensures { OnOk result (Adds scopes.now.declared (spec.spec_needs what.now init.now) row.old.items row.new.items) }
{
    named(scopes, spec_type(what), row)?;
    start(scopes, init, row)
}

fn members(scopes: &Scopes, members: &[Member], row: &mut Vec<u32>) -> Result<(), OutOfMemory>
    ensures { OnOk result (Adds scopes.now.declared (flat_map spec.member_needs members.now) row.old.items row.new.items) }
{
    for member in members {
        spec(scopes, &member.spec, &member.init, row)?;
    }
    Ok(())
}

/// What a type needs.
pub fn type_what(scopes: &Scopes, what: &TypeWhat, row: &mut Vec<u32>) -> Result<(), OutOfMemory>
    ensures { OnOk result (Adds scopes.now.declared (spec.type_needs what.now) row.old.items row.new.items) }
{
    match what {
        TypeWhat::Enum { .. } => Ok(()),
        TypeWhat::Struct(list) => members(scopes, list.as_slice(), row),
        TypeWhat::Spec { spec, init } => self::spec(scopes, spec, init, row),
    }
}

// ---- program organisation units

fn section(scopes: &Scopes, section: &Section, row: &mut Vec<u32>) -> Result<(), OutOfMemory>
    ensures { OnOk result (Adds scopes.now.declared (spec.section_needs section.now) row.old.items row.new.items) }
{
    for decl in section.decls.as_slice() {
        spec(scopes, &decl.spec, &decl.init, row)?;
    }
    Ok(())
}

fn sections(scopes: &Scopes, sections: &[Section], row: &mut Vec<u32>) -> Result<(), OutOfMemory>
    ensures { OnOk result (Adds scopes.now.declared (flat_map spec.section_needs sections.now) row.old.items row.new.items) }
{
    for s in sections {
        section(scopes, s, row)?;
    }
    Ok(())
}

fn returned(scopes: &Scopes, ty: &Option<Id>, row: &mut Vec<u32>) -> Result<(), OutOfMemory>
    ensures { OnOk result (Adds scopes.now.declared (spec.result_needs ty.now) row.old.items row.new.items) }
{
    match ty {
        Some(id) => named(scopes, id, row),
        None => Ok(()),
    }
}

/// What a program organisation unit needs.
pub fn pou(alloc: Global, scopes: &Scopes, pou: &Pou, row: &mut Vec<u32>) -> Result<(), OutOfMemory>
    ensures { OnOk result (Adds scopes.now.declared (spec.pou_needs pou.now) row.old.items row.new.items) }
{
    let own = Own::of(alloc, pou.sections.as_slice())?;
    returned(scopes, &pou.result, row)?;
    sections(scopes, pou.sections.as_slice(), row)?;
    body(scopes, &own, &pou.body, row)
}
