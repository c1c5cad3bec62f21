//! The graph of the library and a source.
ghost use Rattle.std.specs.Prelude.{◌≡◌, IfOk, OnOk};
ghost use Rattle.std.specs.List.{flat_map};
ghost use Rattle.plc_names.specs.Needs as spec;
ghost use Rattle.plc_needs.specs.Rows.{Grows, numbered_rows};

use crate::rows::{config_rows, pou_rows, type_rows};
use circles::Needs;
use plc_base::OutOfMemory;
use plc_declared::{Item, What, items, own_items};
use plc_scopes::Scopes;
use plc_tree::tree::Unit;
use std::alloc::Global;

/// The rows of a declaration with all that is declared in it.
fn item_rows(
    alloc: Global,
    scopes: &Scopes,
    unit: &Unit,
    item: &Item,
    needs: &mut Needs,
) -> Result<(), OutOfMemory>
    ensures { OnOk result (Grows scopes.now.declared (numbered_rows unit.now item.now) needs.old needs.new) }
{
    match item.what {
        What::Type(k) => match unit.types.get(k) {
            Some(def) => type_rows(alloc, scopes, def, needs),
            None => Ok(()),
        },
        What::Pou(k) => match unit.pous.get(k) {
            Some(pou) => pou_rows(alloc, scopes, pou, needs),
            None => Ok(()),
        },
        What::Config => match unit.configs.get(0) {
            Some(config) => config_rows(config, needs),
            None => Ok(()),
        },
    }
}

fn items_rows(
    alloc: Global,
    scopes: &Scopes,
    unit: &Unit,
    items: &[Item],
    needs: &mut Needs,
) -> Result<(), OutOfMemory>
    ensures { OnOk result (Grows scopes.now.declared (flat_map (numbered_rows unit.now) items.now) needs.old needs.new) }
{
    for item in items {
        item_rows(alloc, scopes, unit, item, needs)?;
    }
    Ok(())
}

/// What each declaration of the library and of a source needs, by their numbers.
pub fn needs(
    alloc: Global,
    library: &Unit,
    unit: &Unit,
    scopes: &Scopes,
) -> Result<Needs, OutOfMemory>
    ensures { IfOk result (λ needs. needs ≡ spec.graph scopes.now.declared (spec.rows library.now unit.now)) }
{
    let mut needs = Needs::new(alloc);
    let of_library = own_items(alloc, library)?;
    items_rows(alloc, scopes, library, of_library.as_slice(), &mut needs)?;
    let of_source = items(alloc, unit)?;
    items_rows(alloc, scopes, unit, of_source.as_slice(), &mut needs)?;
    Ok(needs)
}
