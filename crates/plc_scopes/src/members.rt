//! The numbers that are declared in each scope.
ghost use Rattle.std.specs.Prelude.{◌≡◌, [], ◌<◌, ◌^◌, ℕ, length, IfOk, OnOk};
ghost use Rattle.plc_names.specs.Lookup.{members_in};
ghost use Rattle.plc_scopes.specs.Lists.{list_at, Adds};

use plc_base::OutOfMemory;
use plc_names::declarations::Declaration;
use sqlite_items::Items;
use std::alloc::Global;

/// So many lists without a number.
fn no_members(alloc: Global, count: u32) -> Result<Vec<Items<u32>>, OutOfMemory>
    ensures count { IfOk result (λ lists. length lists.items ≡ count) }
    ensures none { IfOk result (λ lists. (k : ℕ) → list_at lists.items k ≡ []) }
{
    let mut lists = Vec::new(alloc);
    for _ in 0..count {
        lists.push(Items::new(alloc))?;
    }
    Ok(lists)
}

/// Puts a number at the end of a list.
fn add(lists: &mut Vec<Items<u32>>, at: usize, number: u32) -> Result<(), OutOfMemory>
    requires { at < length lists.old.items }
    ensures { OnOk result (Adds at number lists.old.items lists.new.items) }
{
    let list = &mut lists[at];
    list.push(number)?;
    Ok(())
}

/// The numbers that are declared in each of so many scopes.
pub fn members_of(
    alloc: Global,
    declared: &[Declaration],
    count: u32,
) -> Result<Vec<Items<u32>>, OutOfMemory>
    requires { length declared.now < 2 ^ 32 }
    ensures count { IfOk result (λ lists. length lists.items ≡ count) }
    ensures lists { IfOk result (λ lists. (scope : ℕ) → scope < count → list_at lists.items scope ≡ members_in declared.now scope) }
{
    let mut members = no_members(alloc, count)?;
    for (i, d) in declared.iter().enumerate() {
        if d.scope < count {
            add(&mut members, d.scope as usize, i as u32)?;
        }
    }
    Ok(members)
}
