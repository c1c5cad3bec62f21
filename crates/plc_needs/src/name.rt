//! A name that is needed, and one that is called.
ghost use Rattle.std.specs.Prelude.{OnOk, [], ◌∷◌};
ghost use Rattle.plc_base.specs.declared.refusal.Place.{Place as At};
ghost use Rattle.plc_names.specs.Needs.{called};
ghost use Rattle.plc_needs.specs.Own.{has};
ghost use Rattle.plc_needs.specs.Row.{Adds};

use crate::own::Own;
use plc_base::{Name, OutOfMemory};
use plc_scopes::Scopes;

/// What a name of the source stands for is needed, wherever it is named.
pub fn need(scopes: &Scopes, name: &Name, row: &mut Vec<u32>) -> Result<(), OutOfMemory>
    ensures { OnOk result ((at : At) → Adds scopes.now.declared (record { name = name.now; at = at } ∷ []) row.old.items row.new.items) }
{
    if let Some(number) = scopes.find(0, name.bytes()) {
        row.push(number)?;
    }
    Ok(())
}

/// So is what is called, unless its name is declared in the program organisation unit itself.
pub fn call(scopes: &Scopes, own: &Own, name: &Name, row: &mut Vec<u32>) -> Result<(), OutOfMemory>
    ensures { OnOk result ((at : At) → Adds scopes.now.declared (called (has own.now) name.now at) row.old.items row.new.items) }
{
    if own.has(name) {
        return Ok(());
    }
    need(scopes, name, row)
}
