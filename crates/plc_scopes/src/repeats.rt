//! Names in a list that an earlier one of the list is equal to.
ghost use Rattle.std.specs.Prelude.{◌≡◌, OnOk, map, not};
ghost use Rattle.std.specs.List.{list_any};
ghost use Rattle.std.specs.Str.{bytes_eq};
ghost use Rattle.plc_base.specs.Least.{Meets};
ghost use Rattle.plc_names.specs.Rules.{field_name};
ghost use Rattle.plc_scopes.specs.Repeated.{repeated_faults, Adds};

use crate::words::Words;
use plc_base::{Least, Name, OutOfMemory, Place, Rule};
use plc_tree::tree::{Id, Member};
use std::alloc::Global;

/// One more name of a list.
fn note(
    alloc: Global,
    words: &mut Words,
    rule: Rule,
    name: &Name,
    at: Place,
    met: &mut Least,
) -> Result<(), OutOfMemory>
    ensures { OnOk result (Adds rule (record { name = name.now; at = at }) words.old words.new met.old met.new) }
{
    let (_, new) = words.add(alloc, name.bytes())?;
    met.want(new, rule, at);
    Ok(())
}

/// The names of a list that repeat an earlier one break this rule.
pub fn repeated_names(
    alloc: Global,
    ids: &[Id],
    rule: Rule,
    met: &mut Least,
) -> Result<(), OutOfMemory>
    ensures { OnOk result (Meets (repeated_faults rule ids.now) met.old met.new) }
{
    let mut words = Words::new(alloc);
    for id in ids {
        note(alloc, &mut words, rule, &id.name, id.at, met)?;
    }
    Ok(())
}

/// Likewise the fields of a structure.
pub fn repeated_fields(
    alloc: Global,
    members: &[Member],
    rule: Rule,
    met: &mut Least,
) -> Result<(), OutOfMemory>
    ensures { OnOk result (Meets (repeated_faults rule (map field_name members.now)) met.old met.new) }
{
    let mut words = Words::new(alloc);
    for member in members {
        note(alloc, &mut words, rule, &member.name, member.at, met)?;
    }
    Ok(())
}
