//! The rows of the graph: one for each declared name, in the order of their numbers.
ghost use Rattle.std.specs.Prelude.{◌≡◌, ◌++◌, ◌∷◌, [], OnOk, length, replicate, List};
ghost use Rattle.std.specs.List.{flat_map};
ghost use Rattle.plc_names.specs.Needs as spec;
ghost use Rattle.plc_names.specs.declared.declarations.Declaration.{Declaration};
ghost use Rattle.plc_needs.specs.Rows as defined;
ghost use Rattle.plc_needs.specs.Rows.{Grows};

use crate::declarations::{pou, type_what};
use circles::Needs;
use plc_base::OutOfMemory;
use plc_scopes::Scopes;
use plc_tree::tree::{Config, Pou, Resource, Section, TypeDef, TypeWhat};
use std::alloc::Global;

// ---- single rows

/// A row with these numbers.
fn add_row(needs: &mut Needs, row: &[u32]) -> Result<(), OutOfMemory>
    ensures { OnOk result (needs.new ≡ needs.old ++ row.now ∷ []) }
{
    needs.begin()?;
    for other in row {
        needs.need(*other)?;
    }
    Ok(())
}

/// So many rows of what needs nothing.
fn empty_rows(count: usize, needs: &mut Needs) -> Result<(), OutOfMemory>
    ensures { OnOk result (needs.new ≡ needs.old ++ replicate count []) }
{
    for _ in 0..count {
        needs.begin()?;
    }
    Ok(())
}

fn type_row(
    alloc: Global,
    scopes: &Scopes,
    def: &TypeDef,
    needs: &mut Needs,
) -> Result<(), OutOfMemory>
    ensures { OnOk result (Grows scopes.now.declared (spec.type_needs def.now.what ∷ []) needs.old needs.new) }
{
    let mut row = Vec::new(alloc);
    type_what(scopes, &def.what, &mut row)?;
    add_row(needs, &row)
}

fn pou_row(alloc: Global, scopes: &Scopes, unit: &Pou, needs: &mut Needs) -> Result<(), OutOfMemory>
    ensures { OnOk result (Grows scopes.now.declared (spec.pou_needs unit.now ∷ []) needs.old needs.new) }
{
    let mut row = Vec::new(alloc);
    pou(alloc, scopes, unit, &mut row)?;
    add_row(needs, &row)
}

// ---- variables

fn section_rows(section: &Section, needs: &mut Needs) -> Result<(), OutOfMemory>
    ensures { OnOk result ((ds : List Declaration) → Grows ds (defined.section_rows section.now) needs.old needs.new) }
{
    for decl in section.decls.as_slice() {
        empty_rows(decl.names.len(), needs)?;
    }
    Ok(())
}

fn sections_rows(sections: &[Section], needs: &mut Needs) -> Result<(), OutOfMemory>
    ensures { OnOk result ((ds : List Declaration) → Grows ds (flat_map defined.section_rows sections.now) needs.old needs.new) }
{
    for section in sections {
        section_rows(section, needs)?;
    }
    Ok(())
}

// ---- declarations

/// How many values an enumeration has; of another type none.
fn values_len(what: &TypeWhat) -> usize
    ensures { result ≡ length (spec.values_of what.now) }
{
    match what {
        TypeWhat::Enum { values, .. } => values.len(),
        TypeWhat::Struct(_) | TypeWhat::Spec { .. } => 0,
    }
}

/// A type and its values.
pub fn type_rows(
    alloc: Global,
    scopes: &Scopes,
    def: &TypeDef,
    needs: &mut Needs,
) -> Result<(), OutOfMemory>
    ensures { OnOk result (Grows scopes.now.declared (defined.type_rows def.now) needs.old needs.new) }
{
    type_row(alloc, scopes, def, needs)?;
    empty_rows(values_len(&def.what), needs)
}

/// A program organisation unit and its variables.
pub fn pou_rows(
    alloc: Global,
    scopes: &Scopes,
    unit: &Pou,
    needs: &mut Needs,
) -> Result<(), OutOfMemory>
    ensures { OnOk result (Grows scopes.now.declared (defined.pou_rows unit.now) needs.old needs.new) }
{
    pou_row(alloc, scopes, unit, needs)?;
    sections_rows(unit.sections.as_slice(), needs)
}

fn resource_rows(resource: &Resource, needs: &mut Needs) -> Result<(), OutOfMemory>
    ensures { OnOk result ((ds : List Declaration) → Grows ds (defined.resource_rows resource.now) needs.old needs.new) }
{
    needs.begin()?;
    sections_rows(resource.globals.as_slice(), needs)?;
    empty_rows(resource.tasks.len(), needs)?;
    empty_rows(resource.insts.len(), needs)
}

fn resources_rows(resources: &[Resource], needs: &mut Needs) -> Result<(), OutOfMemory>
    ensures { OnOk result ((ds : List Declaration) → Grows ds (flat_map defined.resource_rows resources.now) needs.old needs.new) }
{
    for resource in resources {
        resource_rows(resource, needs)?;
    }
    Ok(())
}

/// A configuration with its variables, resources, tasks and instances.
pub fn config_rows(config: &Config, needs: &mut Needs) -> Result<(), OutOfMemory>
    ensures { OnOk result ((ds : List Declaration) → Grows ds (defined.config_rows config.now) needs.old needs.new) }
{
    needs.begin()?;
    sections_rows(config.globals.as_slice(), needs)?;
    resources_rows(config.resources.as_slice(), needs)
}
